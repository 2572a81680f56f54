// Names that are used.
ghost use Rattle.std.specs.Prelude.{◌≡◌, ◌++◌, ◌∷◌, [], OnOk, map};
ghost use Rattle.live_model.specs.Uses.{uses_of_signals};
ghost use Rattle.live_uses.specs.Views.{use_of};

use live_model::Need;
use sig_base::{Name, NoMemory};

/// A name that a command uses, and what it has to be.
#[derive(Clone, Copy)]
pub struct Use<'a> {
    pub name: &'a Name,
    pub need: Need,
}

/// Puts a name behind others.
pub(crate) fn put_use<'a>(
    uses: &mut Vec<Use<'a>>,
    name: &'a Name,
    need: Need,
) -> Result<(), NoMemory>
    ensures { OnOk result (map use_of uses.new.items ≡ map use_of uses.old.items ++ (name.now, need) ∷ []) }
{
    uses.push(Use { name, need })?;
    Ok(())
}

/// Puts names behind others, each of which has to be a signal.
pub(crate) fn put_signals<'a>(uses: &mut Vec<Use<'a>>, names: &'a [Name]) -> Result<(), NoMemory>
    ensures { OnOk result (map use_of uses.new.items ≡ map use_of uses.old.items ++ uses_of_signals names.now) }
{
    uses.reserve(names.len())?;
    for name in names {
        put_use(uses, name, Need::Signal)?;
    }
    Ok(())
}
