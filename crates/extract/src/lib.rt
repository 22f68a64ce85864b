// One area of the faithful walk: taking its numbers, with the largest of their remainders, and adding them up. Rules WB2 and F8: on floats, rounded once each.
#![tactic(auto)]

ghost use Rattle.std.specs.Prelude.{◌≡◌, false, T};
ghost use Rattle.std.specs.Float.Ieee.Scale.{finite};
ghost use Rattle.lists.specs.Each.{Each};
ghost use Rattle.ieee.specs.Units.{negative};
ghost use Rattle.extract.specs.Extract.{remainder_of, gathered, remainders, last_sum, absolute, largest_with};

use kinds::Floating;

pub mod first;
pub mod grouped;

// What a block's high parts are gathered to, and the largest magnitude among its remainders and those of the round before it.
#[derive(Drop)]
pub struct Extracted<F> {
    pub tau: F,
    pub largest: F,
}

// Rules WB1 and WS13, for the places of a block. Patterns without their sign are in the order of their magnitudes; they are compared, and not the floats,
// since the greatest of several whole numbers can be taken at once. With +0 handed in it is the largest of the block alone.
pub fn extract<F: Floating>(block: &mut [F], sigma: F, tau: F, largest: F) -> Extracted<F>
    requires { T (finite (F.value largest)) × (negative (F.value largest) ≡ false)
        × Each (λ x. T (finite (remainder_of F.width.format (F.value sigma) x))) (F.values block.old) }
    ensures { (F.value result.tau ≡ gathered F.width.format (F.value sigma) (F.value tau) (F.values block.old))
        × (F.value result.largest
        ≡ largest_with F.width.format (F.value largest) (remainders F.width.format (F.value sigma) (F.values block.old)))
        × (F.values block.new ≡ remainders F.width.format (F.value sigma) (F.values block.old)) }
{
    let mut sum = tau;
    let mut most = largest.bits();
    for x in block.iter_mut() {
        let q = (sigma + *x) - sigma;
        let rest = *x - q;
        *x = rest;
        sum = sum + q;
        most = F::larger(most, F::unsigned(rest.bits()));
    }
    Extracted {
        tau: sum,
        largest: F::from_bits(most),
    }
}

// T of rule W3: one chain over the whole area, since in pieces it rounds otherwise (rule E4).
pub fn last_sum<F: Floating>(work: &[F]) -> F
    ensures { F.value result ≡ last_sum F.width.format (F.values work.now) }
{
    work.iter().fold(F::zero(), |sum, x| sum + *x)
}

// The magnitude of a number. A zero keeps its sign, as the definition has it: `abs` would take that off.
pub fn absolute<F: Floating>(x: F) -> F
    ensures { F.value result ≡ absolute F.width.format (F.value x) }
{
    if x < F::zero() {
        return -x;
    }
    x
}
