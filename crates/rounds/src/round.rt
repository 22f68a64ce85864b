// A round of the walk: how it opens, and taking its blocks.
ghost use Rattle.std.specs.Prelude.{◌≡◌, false, ℕ, ◌+◌, ◌≤◌, ◌<◌, length};
ghost use Rattle.units.specs.Rounding.{ceil};
ghost use Rattle.ieee.specs.Units.{negative, magnitude};
ghost use Rattle.exponent.specs.Power.{power_of};
ghost use Rattle.judge.specs.Judge.{floats, first_fault};
ghost use Rattle.judge.specs.Table.{size_of};
ghost use Rattle.kinds.specs.Answers.{as_state};
ghost use Rattle.kinds.specs.Limits.{exponent_of, blocks_of};
ghost use Rattle.kinds.specs.Verdict.{Good};
ghost use Rattle.extract.specs.Extract.{last_sum};
ghost use Rattle.rounds.specs.InUnits.{Small};
ghost use Rattle.rounds.specs.Closable.{Takable};
ghost use Rattle.rounds.specs.Fitting.{Fitting};
ghost use Rattle.rounds.specs.Begun.{Begun};
ghost use Rattle.rounds.specs.Round.{turned, in_round, taken_state, all_taken, all_left, round_of};

use kinds::{BLOCK, Floating, State};

// Rule WC2.
pub fn begin<F: Floating>(n: usize, sigma: F, t: F, rounds: u32, ensemble: u32) -> State<F>
    requires { (1 ≤ n) × (n ≤ F.width.length) }
    ensures { as_state F.value result ≡ round_of F.width n (F.value sigma) (F.value t) rounds ensemble }
{
    State {
        sigma,
        t,
        tau: F::zero(),
        n,
        pending: bitset::full(kinds::blocks(n)),
        rounds,
        ensemble,
        largest: F::zero(),
    }
}

// sigma of rule WO3.
pub fn sigma<F: Floating>(n: usize, mu: F) -> F
    requires { (n ≤ F.width.length) × Small F.width.format (size_of F.width F.width.magnitude) (F.value mu) × (negative (F.value mu) ≡ false) }
    ensures { F.value result ≡ power_of F.width.format (exponent_of n + ceil (magnitude F.width.format (F.value mu))) }
{
    exponent::power(kinds::exponent(n) + exponent::ceiling(mu))
}

// The same round with another tau, largest remainder and pending set.
fn in_round<F: Floating>(s: State<F>, tau: F, largest: F, pending: u64) -> State<F>
    ensures { as_state F.value result ≡ in_round (as_state F.value s) (F.value tau) (F.value largest) pending }
{
    State {
        tau,
        largest,
        pending,
        ..s
    }
}

// Rules L8, WB1 and WS13: a block's numbers become their remainders, and no other place is written.
pub fn take<F: Floating>(s: State<F>, work: &mut [F], block: usize) -> State<F>
    requires { (s.n ≤ F.width.length) × (length work.old ≡ s.n) × (block < blocks_of F.width s.n)
        × Takable F.width (as_state F.value s) (F.values work.old) }
    ensures { (as_state F.value result ≡ taken_state F.width (as_state F.value s) block (F.values work.old))
        × (F.values work.new ≡ turned F.width (F.value s.sigma) block (F.values work.old)) }
{
    let from = BLOCK * block;
    let to = (from + BLOCK).min(s.n);
    let taken = extract::extract(&mut work[from..to], s.sigma, s.tau, s.largest);
    let pending = bitset::without(s.pending, block);
    in_round(s, taken.tau, taken.largest, pending)
}

// Every block of a round in rising order: that is the whole area in one extraction. Only for a round of a run: tau is in eight sums, and there each is exact,
// so that any grouping gives the same tau.
pub fn take_all<F: Floating>(s: State<F>, work: &mut [F]) -> State<F>
    requires { (fit : Fitting F.width) × (e : ℕ) × Begun F.width fit e (as_state F.value s) (F.values work.old) }
    ensures { (as_state F.value result ≡ all_taken F.width (as_state F.value s) (F.values work.old))
        × (F.values work.new ≡ all_left F.width (as_state F.value s) (F.values work.old)) }
{
    let taken = extract::grouped::extract_grouped(work, s.sigma, s.largest);
    in_round(s, taken.tau, taken.largest, 0)
}

// What `take_all` answers, and T of rule W3.
#[derive(Drop)]
pub struct Listed<F> {
    pub state: State<F>,
    pub sum: F,
}

// The same for the first round of a list that was judged good: its numbers are read there, and their remainders written to the area.
pub fn take_list<F: Floating>(s: State<F>, list: &[F::Pattern], work: &mut [F]) -> Listed<F>
    requires { (length work.old ≡ length list.now) × (first_fault F.width (F.patterns list.now) 0 ≡ Good)
        × Takable F.width (as_state F.value s) (floats F.width (F.patterns list.now)) }
    ensures { (as_state F.value result.state ≡ all_taken F.width (as_state F.value s) (floats F.width (F.patterns list.now)))
        × (F.value result.sum
        ≡ last_sum F.width.format (all_left F.width (as_state F.value s) (floats F.width (F.patterns list.now))))
        × (F.values work.new ≡ all_left F.width (as_state F.value s) (floats F.width (F.patterns list.now))) }
{
    let taken = extract::first::from_list(list, work, s.sigma, s.tau, s.largest);
    let state = in_round(s, taken.tau, taken.largest, 0);
    Listed {
        state,
        sum: taken.sum,
    }
}
