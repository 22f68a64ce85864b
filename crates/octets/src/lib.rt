// Numbers in bytes.
#![tactic(auto)]

pub mod little;

ghost use Rattle.std.specs.Prelude.{◌≡◌, ◌++◌, ◌+◌, ◌≤◌, ◌<◌, length, take, drop};
ghost use Rattle.octets.specs.Octets.{big_endian, big, bytes_at};

// A byte as a wide number. That it is below 256 is said so that callers know their sums fit.
pub fn wide(b: u8) -> u64
    ensures { (result ≡ b) × (result < 256) }
{
    u64::from(b)
}

// The number that so many bytes from a place on stand for, as on a sheet (rule H1). Eight bytes at most, since nine need not fit.
pub fn big_endian(bytes: &[u8], at: usize, count: usize) -> u64
    requires { (count ≤ 8) × (at + count ≤ length bytes.now) }
    ensures { result ≡ big (bytes_at bytes.now at count) }
{
    let mut v: u64 = 0;
    for b in &bytes[at..at + count] {
        v = v * 256 + wide(*b);
    }
    v
}

// A number to so many bytes from a place on, the highest first, and to no byte beside them. What doesn't fit is cut off.
pub fn write_big_endian(bytes: &mut [u8], at: usize, count: usize, v: u64)
    requires { at + count ≤ length bytes.old }
    ensures { bytes.new ≡ take at bytes.old ++ (big_endian count v ++ drop (at + count) bytes.old) }
{
    let mut rest = v;
    for i in (at..at + count).rev() {
        bytes[i] = (rest % 256) as u8;
        rest /= 256;
    }
}
