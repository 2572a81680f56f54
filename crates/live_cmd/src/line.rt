// What one line of a script says.
ghost use Rattle.std.specs.Prelude.{◌≡◌, true, false, Ok, Err};
ghost use Rattle.live_cmd.specs.declared.line.Line.TheVariants as given;

use crate::Command;
use formula_text::FormulaFault;
use sig_base::{Name, Text};

/// What a line says, by itself: where it may stand is another matter.
#[derive(Drop)]
pub enum Line {
    /// A command of one line.
    Alone(Command),
    /// `effect E [in O]`, the first line of a block
    Effect(Name, Option<Name>),
    /// `on T PLACE @EVENT`, the first line of a block
    On(Name, u64, Text),
    /// `template T`, the first line of a block
    Template(Name),
    /// `end`, the last line of a block
    End,
}

/// What a line says: whether it is a command by itself, and the line, or what is wrong with it. No command by itself are the first line
/// of a block and the last, and a line that names fields which no list can have.
#[derive(Drop)]
pub struct Found {
    pub alone: bool,
    pub line: Result<Line, FormulaFault>,
}

/// A command of one line.
pub fn alone(command: Command) -> Found
    ensures { result ≡ record { alone = true; line = Ok (given.Alone command) } }
{
    Found {
        alone: true,
        line: Ok(Line::Alone(command)),
    }
}

/// A command of one line that something is wrong with.
pub fn faulty(fault: FormulaFault) -> Found
    ensures { result ≡ record { alone = true; line = Err fault } }
{
    Found {
        alone: true,
        line: Err(fault),
    }
}

/// The first line of a block, or the last.
pub fn around(line: Line) -> Found
    ensures { result ≡ record { alone = false; line = Ok line } }
{
    Found {
        alone: false,
        line: Ok(line),
    }
}
