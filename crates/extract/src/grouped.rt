// A whole area with tau in eight sums, so that eight additions are under way at once.
ghost use Rattle.std.specs.Prelude.{◌≡◌, false, ◌++◌, ◌*◌, ◌/◌, T, length, take, drop};
ghost use Rattle.std.specs.Float.Ieee.{to_bits, fits};
ghost use Rattle.std.specs.Float.Ieee.Scale.{finite};
ghost use Rattle.lists.specs.Each.{Each};
ghost use Rattle.ieee.specs.Units.{negative};
ghost use Rattle.extract.specs.Extract.{remainder_of, remainders, largest_with};
ghost use Rattle.extract.specs.Grouped.{spread, spreads, joined, grouped};
ghost use Rattle.extract.specs.GroupedLaws.{Raised};

use crate::{Extracted, extract};
use kinds::Floating;

// The eight sums in one, and the greatest pattern of the remainders. The eight aren't a field: how much room an array of `F` takes in a struct isn't known to
// a proof.
#[derive(Drop)]
struct Gathered<F: Floating> {
    tau: F,
    most: F::Pattern,
}

// Eight numbers: each high part goes to a sum of its own.
fn turn<F: Floating>(part: &mut [F], sigma: F, taus: &mut [F], largest: F::Pattern) -> F::Pattern
    requires { (length part.old ≡ 8) × (length taus.old ≡ 8)
        × Each (λ x. T (finite (remainder_of F.width.format (F.value sigma) x))) (F.values part.old) }
    ensures { (F.values taus.new ≡ spread F.width.format (F.value sigma) (F.values taus.old) (F.values part.old))
        × (F.values part.new ≡ remainders F.width.format (F.value sigma) (F.values part.old))
        × Raised F.width.format (F.pattern largest) (remainders F.width.format (F.value sigma) (F.values part.old)) (F.pattern result) }
{
    let mut most = largest;
    for k in 0..8 {
        let x = part[k];
        let q = (sigma + x) - sigma;
        let rest = x - q;
        part[k] = rest;
        taus[k] = taus[k] + q;
        most = F::larger(most, F::unsigned(rest.bits()));
    }
    most
}

// The area in turns of eight; what is behind the last is left as it is. A turn's part is cut by place: what `chunks_exact_mut` leaves in the area isn't known
// to a proof.
fn turns<F: Floating>(work: &mut [F], sigma: F, largest: F) -> Gathered<F>
    requires { Each (λ x. T (finite (remainder_of F.width.format (F.value sigma) x))) (F.values work.old) × T (finite (F.value largest)) }
    ensures { (F.value result.tau ≡ joined F.width.format (spreads F.width.format (F.value sigma) (F.values work.old) (length work.old / 8)))
        × (F.values work.new
        ≡ remainders F.width.format (F.value sigma) (take (8 * (length work.old / 8)) (F.values work.old))
        ++ drop (8 * (length work.old / 8)) (F.values work.old))
        × Raised F.width.format (to_bits F.width.format (F.value largest))
        (remainders F.width.format (F.value sigma) (take (8 * (length work.old / 8)) (F.values work.old))) (F.pattern result.most)
        × T (fits F.width.format (F.value largest)) }
{
    let mut taus = [F::zero(); 8];
    let mut most = largest.bits();
    for i in 0..work.len() / 8 {
        let from = 8 * i;
        most = turn(&mut work[from..from + 8], sigma, &mut taus, most);
    }
    Gathered {
        tau: join(taus),
        most,
    }
}

// The eight sums in one.
fn join<F: Floating>(taus: [F; 8]) -> F
    ensures { F.value result ≡ joined F.width.format (F.values taus) }
{
    ((taus[0] + taus[1]) + (taus[2] + taus[3])) + ((taus[4] + taus[5]) + (taus[6] + taus[7]))
}

// As `extract` from tau = +0, where any grouping of the additions to tau has the same answer. What is behind the last eight goes to the sum of the eight.
pub fn extract_grouped<F: Floating>(work: &mut [F], sigma: F, largest: F) -> Extracted<F>
    requires { T (finite (F.value largest)) × (negative (F.value largest) ≡ false)
        × Each (λ x. T (finite (remainder_of F.width.format (F.value sigma) x))) (F.values work.old) }
    ensures { (F.value result.tau ≡ grouped F.width.format (F.value sigma) (F.values work.old))
        × (F.value result.largest ≡ largest_with F.width.format (F.value largest) (remainders F.width.format (F.value sigma) (F.values work.old)))
        × (F.values work.new ≡ remainders F.width.format (F.value sigma) (F.values work.old)) }
{
    let from = 8 * (work.len() / 8);
    let sums = turns(work, sigma, largest);
    let most = F::from_bits(sums.most);
    extract(&mut work[from..], sigma, sums.tau, most)
}
