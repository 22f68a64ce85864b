// Numbers in bytes, the lowest first: rule C2.
ghost use Rattle.std.specs.Prelude.{◌≡◌, ◌++◌, ◌+◌, ◌*◌, ◌≤◌, length, take, drop};
ghost use Rattle.octets.specs.Octets.{little_endian, packed, unpacked};

// The bytes of one number.
pub const SIZE: usize = 8;

// A number to a place, and to no byte beside its eight.
fn write(bytes: &mut [u8], at: usize, v: u64)
    requires { at + 8 ≤ length bytes.old }
    ensures { bytes.new ≡ take at bytes.old ++ (little_endian 8 v ++ drop (at + 8) bytes.old) }
{
    bytes[at..at + SIZE].copy_from_slice(&v.to_le_bytes());
}

// All numbers that the bytes hold. LLVM makes a copy by whole registers of it.
pub fn unpack(bytes: &[u8], numbers: &mut [u64])
    requires { length bytes.now ≡ 8 * length numbers.old }
    ensures { numbers.new ≡ unpacked (length numbers.old) bytes.now }
{
    let (eights, _) = bytes.as_chunks::<SIZE>();
    for (i, n) in numbers.iter_mut().enumerate() {
        *n = u64::from_le_bytes(eights[i]);
    }
}

// All numbers to bytes of their own length.
pub fn pack(numbers: &[u64], bytes: &mut [u8])
    requires { length bytes.old ≡ 8 * length numbers.now }
    ensures { bytes.new ≡ packed numbers.now }
{
    for (i, n) in numbers.iter().enumerate() {
        write(bytes, SIZE * i, *n);
    }
}
