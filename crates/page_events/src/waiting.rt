// Handlers that wait for the same.
ghost use Rattle.std.specs.Prelude.{◌≡◌, ◌++◌, ◌∷◌, [], if◌then◌else◌, OnOk};
ghost use Rattle.event_model.specs.Handlers.{fired_at, same_awaited};

use event_model::{Awaited, Fired};
use sig_base::{NoMemory, PlaceId, Text};

// Whether a handler waits for this.
fn is_awaited(handler: &Awaited, template: PlaceId, line: usize, event: &Text) -> bool
    ensures { result ≡ same_awaited handler.now (record { template = template; line = line; event = event.now }) }
{
    handler.template.number() == template.number()
        && handler.line == line
        && &handler.event == event
}

// Appends a handler that runs at a node, where it does.
fn put_if(runs: bool, fired: Fired, out: &mut Vec<Fired>) -> Result<(), NoMemory>
    ensures { OnOk result (out.new.items ≡ out.old.items ++ (if runs then fired ∷ [] else [])) }
{
    if runs {
        out.push(fired)?;
    }
    Ok(())
}

/// Appends the handlers that wait for an event at a line of a template, in the order of making, each as one that runs at this node.
pub(crate) fn put_waiting(
    all: &[Awaited],
    template: PlaceId,
    line: usize,
    event: &Text,
    node: u64,
    out: &mut Vec<Fired>,
) -> Result<(), NoMemory>
    ensures { OnOk result (out.new.items ≡ out.old.items ++ fired_at all.now (record { template = template; line = line; event = event.now }) node) }
{
    let mut place = 0;
    for handler in all {
        let runs = is_awaited(handler, template, line, event);
        let fired = Fired {
            node,
            handler: place,
        };
        put_if(runs, fired, out)?;
        place += 1;
    }
    Ok(())
}
