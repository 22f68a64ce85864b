// A list whose call is lent an array of values of another length.
ghost use Rattle.std.specs.Prelude.{◌≡◌};
ghost use Rattle.kinds.specs.Refusals.{place};
ghost use Rattle.calls.specs.Inner.{refusal_code};
ghost use Rattle.arrays.specs.Arrays.{too_many_of};

use kinds::{Floating, Refusal};

// The refusal where the array of values has another length: 4, and 1 before it.
pub fn too_many_or_4<F: Floating>(list: &[F::Pattern]) -> Refusal
    ensures nowhere { place result ≡ 0 }
    ensures code { refusal_code result ≡ too_many_of F.width (F.patterns list.now) }
{
    if F::LENGTH < list.len() {
        return Refusal::TooMany;
    }
    Refusal::WrongLength
}
