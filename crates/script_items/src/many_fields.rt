// Lists of too many fields.
ghost use Rattle.std.specs.Prelude.{◌≡◌};
ghost use Rattle.script_items.specs.Items.{has_many_fields};

use live_cmd::Command;
use sig_base::MOST_FIELDS;

/// Whether a command makes a list of more than `MOST_FIELDS` fields.
pub fn has_many_fields(command: &Command) -> bool
    ensures { result ≡ has_many_fields command.now }
{
    match command {
        Command::List { fields, .. } => MOST_FIELDS < fields.as_slice().len(),
        _ => false,
    }
}
