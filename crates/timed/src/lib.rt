// What bench/ times and no call of the library hands out: the inner addition, of a whole list. The library has nothing of this.
#![tactic(auto)]

ghost use Rattle.std.specs.Prelude.{◌≡◌, ◌≤◌, length};
ghost use Rattle.kinds.specs.Limits.{doubles};
ghost use Rattle.kinds.specs.Outcome.{outcome};
ghost use Rattle.judge.specs.Table.{Allowed};
ghost use Rattle.lanes.specs.Lanes.{lane_count};
ghost use Rattle.lanes.specs.Table.{Roomy};
ghost use Rattle.timed.specs.Timed.{put_all, number_of, timed_lanes};

use kinds::Refusal;

// Every number of an allowed list, one after the other: lanes that took one call have room for the 4,094 more that a list may ask for.
fn put_all(list: &[u64], lanes: &mut [i64])
    requires { (length lanes.old ≡ lane_count) × Roomy 1 lanes.old × Allowed doubles list.now × (length list.now ≤ doubles.length) }
    ensures { lanes.new ≡ put_all lanes.old list.now }
{
    for p in list {
        lanes::inner::add(lanes, *p);
    }
}

// Adds a list to lanes. They are looked at once, by the public addition of 0.
#[tactic(auto, unfolding(crate::specs::Timed::after_judgement, crate::specs::Timed::after_look))]
fn add_all(list: &[u64], lanes: &mut [i64]) -> Result<(), Refusal>
    ensures { outcome (number_of result) lanes.new ≡ timed_lanes lanes.old list.now }
{
    judge::judge::<f64>(list, true, true)?;
    lanes::add(lanes, 0, 0)?;
    put_all(list, lanes);
    Ok(())
}

// A refusal's number is answered without its place.
#[unsafe(no_mangle)]
pub extern "C" fn timed_lanes(list: &[u64], lanes: &mut [i64]) -> u32
    ensures { outcome result lanes.new ≡ timed_lanes lanes.old list.now }
{
    match add_all(list, lanes) {
        Ok(()) => 0,
        Err(refusal) => refusal.number(),
    }
}
