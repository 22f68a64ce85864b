// What bench/ times, for C: the export calls the crate `timed` and states its clause again.
#![tactic(auto)]

ghost use Rattle.kinds.specs.Outcome.{outcome};
ghost use Rattle.std.specs.Prelude.{◌≡◌};
ghost use Rattle.timed.specs.Timed.{timed_lanes};

// Adds a list to lanes. They are looked at once, by the public addition of 0: a refusal's number is answered without its place.
#[unsafe(no_mangle)]
pub extern "C" fn timed_lanes(list: &[u64], lanes: &mut [i64]) -> u32
    ensures { outcome result lanes.new ≡ timed_lanes lanes.old list.now }
{
    timed::timed_lanes(list, lanes)
}
