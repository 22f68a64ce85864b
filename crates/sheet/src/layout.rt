// The bytes of a sheet at their places, rule H1: the header, and the patterns behind it. No other byte is written.
ghost use Rattle.std.specs.Prelude.{◌≡◌, ◌∷◌, ◌++◌, ◌+◌, ◌*◌, ◌≤◌, length, take, drop};
ghost use Rattle.octets.specs.Octets.{big_endian};
ghost use Rattle.sheet.specs.Sheet.{body};

use crate::{HEADER, PATTERN, VERSION};
use octets::write_big_endian;

// The version, and the count in 4 bytes.
pub fn header(sheet: &mut [u8], n: usize)
    requires { 5 ≤ length sheet.old }
    ensures { sheet.new ≡ 1 ∷ (big_endian 4 n ++ drop 5 sheet.old) }
{
    sheet[0] = VERSION;
    write_big_endian(sheet, 1, 4, n as u64);
}

// Every pattern of a list, 8 bytes each, behind a header's 5.
pub fn patterns(list: &[u64], sheet: &mut [u8])
    requires { 5 + 8 * length list.now ≤ length sheet.old }
    ensures { sheet.new
        ≡ take 5 sheet.old ++ (body list.now ++ drop (5 + 8 * length list.now) sheet.old) }
{
    for (i, p) in list.iter().enumerate() {
        write_big_endian(sheet, HEADER + PATTERN * i, PATTERN, *p);
    }
}
