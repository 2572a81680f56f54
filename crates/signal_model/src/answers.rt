// Answers of recipes, judged by the slots that there are and by what is known.
ghost use Rattle.std.specs.Prelude.{◌≡◌, true, false};
ghost use Rattle.signal_model.specs.Recipes.{is_known, judged, IsJudged};

use sig_base::{Fault, Known, Step};

fn is_known(slot: u32, known: &[Known]) -> bool
    ensures { result ≡ is_known slot known.now }
{
    for one in known {
        if one.slot == slot {
            return true;
        }
    }
    false
}

/// What an answer comes to where there are so many slots: a read outside of them is the fault `slot`, and one of a slot that is
/// known is `twice`.
pub fn judged(count: usize, known: &[Known], step: Step) -> Step
    ensures answer { result ≡ judged count known.now step }
    ensures judged { IsJudged count known.now result }
{
    match step {
        Step::Read(slot) => {
            if slot as usize >= count {
                Step::Fail(Fault::Slot)
            } else if is_known(slot, known) {
                Step::Fail(Fault::Twice)
            } else {
                Step::Read(slot)
            }
        }
        other => other,
    }
}
