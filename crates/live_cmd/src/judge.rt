// What a line of a command is refused for.
ghost use Rattle.std.specs.Prelude.{◌≡◌};
ghost use Rattle.live_cmd.specs.Refusals.{refused_for};

use formula_text::FormulaFault;
use live_entries::{LimitWord, Refusal};

/// What the line of this number is refused for that has this wrong with it.
pub fn refused_for(number: u32, fault: FormulaFault) -> Refusal
    ensures { result ≡ refused_for number fault }
{
    match fault {
        FormulaFault::UntrackHere => Refusal::UntrackHere(number),
        FormulaFault::ItHere => Refusal::ItHere(number),
        FormulaFault::Nest => Refusal::Nest(number),
        FormulaFault::TextLong => Refusal::Limit(LimitWord::Text),
        FormulaFault::Sources => Refusal::Limit(LimitWord::Sources),
        FormulaFault::Syntax | FormulaFault::NoMemory(_) => Refusal::Syntax(number),
    }
}
