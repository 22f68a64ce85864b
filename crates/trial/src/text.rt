// Words, numbers, doubles and refusals, written to standard output.
use kinds::Refusal;

// What the system calls standard output.
const OUTPUT: i32 = 1;

pub fn put(bytes: &[u8]) {
    io::write_all(OUTPUT, bytes);
}

// A word and a number in decimal.
pub fn named(name: &[u8], n: u64) {
    put(name);
    io::print_decimal(OUTPUT, n);
}

// A word and a pattern in 16 hex digits.
pub fn pattern(name: &[u8], p: u64) {
    put(name);
    io::print_hex(OUTPUT, p, 16);
}

// A double's pattern. The bits of a NaN can't be read: each is shown as this one.
pub fn bits(x: f64) -> u64 {
    if x.is_nan() {
        return 0x7FF8_0000_0000_0000;
    }
    x.to_bits()
}

// The number of a refusal's rule, and the place that it tells, 0 where it tells none.
pub fn refused(refusal: Refusal) {
    named(b" refused ", u64::from(refusal.number()));
    named(b" place ", u64::from(refusal.place().unwrap_or(0)));
}
