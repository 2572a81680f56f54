// The owner inside which something is made.
ghost use Rattle.std.specs.Prelude.{◌≡◌, ◌++◌, OnOk, codes};
ghost use Rattle.line_forms.specs.Forms as form;
ghost use Rattle.line_forms.specs.Printed.{part_text};

use line_forms::{put_fixed, put_name};
use sig_base::{Name, NoMemory};

/// Appends `in` and the name of an owner, if there is one.
pub fn put_inside(out: &mut Vec<u8>, inside: &Option<Name>) -> Result<(), NoMemory>
    ensures { OnOk result (out.new.items ≡ out.old.items ++ part_text (form.perhaps (codes "in") form.name) inside.now) }
{
    match inside {
        None => Ok(()),
        Some(name) => {
            put_fixed(out, b"in")?;
            put_name(out, name)
        }
    }
}
