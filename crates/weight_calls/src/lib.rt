// The leaver's weight handed on, for C.
#![tactic(auto)]

ghost use Rattle.std.specs.Prelude.{◌≡◌};
ghost use Rattle.kinds.specs.Outcome.{outcome};
ghost use Rattle.weight_calls.specs.WeightArrays.{hand_on_arrays};

// The new weights of those who stay, as `weights::hand_on` has them.
#[unsafe(no_mangle)]
pub extern "C" fn kewohiata_weights_hand_on(list: &[u64], leaver: usize, out: &mut [u64]) -> u32
    ensures { outcome result out.new ≡ hand_on_arrays list.now leaver out.old }
{
    calls::code(weights::hand_on(list, leaver, out))
}
