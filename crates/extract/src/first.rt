// The first round of an undivided walk, from the list to the work area.
ghost use Rattle.std.specs.Prelude.{◌≡◌, false, not, map, T, length};
ghost use Rattle.std.specs.Float.Ieee.{nan_bits, of_bits};
ghost use Rattle.std.specs.Float.Ieee.Scale.{finite};
ghost use Rattle.lists.specs.Each.{Each};
ghost use Rattle.ieee.specs.Units.{negative};
ghost use Rattle.extract.specs.Extract.{remainder_of, gathered, remainders, last_sum, largest_with};

use kinds::Floating;

// What `extract` answers, and T of rule W3.
#[derive(Drop)]
pub struct First<F> {
    pub tau: F,
    pub largest: F,
    pub sum: F,
}

// Rules WB1 and WS13 for a whole list, as `extract` has them for a block; the list is only read, and its remainders are written. T is added up beside tau, in
// the same order as `last_sum` does: two chains of additions take no longer than one. The area is written by place: what a zip with
// `iter_mut` leaves there isn't known to a proof.
pub fn from_list<F: Floating>(
    list: &[F::Pattern],
    work: &mut [F],
    sigma: F,
    tau: F,
    largest: F,
) -> First<F>
    requires { (length work.old ≡ length list.now) × T (finite (F.value largest)) × (negative (F.value largest) ≡ false)
        × Each (λ p. T (not (nan_bits F.width.format p))) (F.patterns list.now)
        × Each (λ x. T (finite (remainder_of F.width.format (F.value sigma) x))) (map (of_bits F.width.format) (F.patterns list.now)) }
    ensures { (F.value result.tau ≡ gathered F.width.format (F.value sigma) (F.value tau) (map (of_bits F.width.format) (F.patterns list.now)))
        × (F.value result.largest
        ≡ largest_with F.width.format (F.value largest) (remainders F.width.format (F.value sigma) (map (of_bits F.width.format) (F.patterns list.now))))
        × (F.value result.sum ≡ last_sum F.width.format (remainders F.width.format (F.value sigma) (map (of_bits F.width.format) (F.patterns list.now))))
        × (F.values work.new ≡ remainders F.width.format (F.value sigma) (map (of_bits F.width.format) (F.patterns list.now))) }
{
    let mut gathered = tau;
    let mut sum = F::zero();
    let mut most = largest.bits();
    for (i, p) in list.iter().enumerate() {
        let x = F::from_bits(*p);
        let q = (sigma + x) - sigma;
        let rest = x - q;
        work[i] = rest;
        gathered = gathered + q;
        sum = sum + rest;
        most = F::larger(most, F::unsigned(rest.bits()));
    }
    First {
        tau: gathered,
        largest: F::from_bits(most),
        sum,
    }
}
