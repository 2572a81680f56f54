// The way of an event up a page.
ghost use Rattle.std.specs.Prelude.{◌≡◌, ◌++◌, List, ℕ, OnOk};
ghost use Rattle.std.specs.List.{flat_map};
ghost use Rattle.event_model.specs.Handlers.{awaited_at, fired_at};
ghost use Rattle.page_events.specs.Steps.{steps_up};
ghost use Rattle.tpl_model.specs.Lines.{Line};
ghost use Rattle.tpl_live.specs.Contents.{standing};
ghost use Rattle.tpl_live.specs.Pages.{page_in, Stands};

use crate::waiting::put_waiting;
use event_model::{Awaited, Fired};
use sig_base::{NoMemory, PlaceId, Text};
use tpl_live::Page;

/// How many steps below the root a node stands at most.
pub(crate) const MOST_STEPS: u32 = 32;

/// Appends the handlers that run at a node, then at its parent, and so on up to a child of the root, at most at so many.
pub(crate) fn put_way(
    all: &[Awaited],
    page: &Page,
    template: PlaceId,
    node: u64,
    event: &Text,
    steps: u32,
    out: &mut Vec<Fired>,
) -> Result<(), NoMemory>
    ensures { (lines : List Line) (links : List ℕ) → Stands lines links (standing page.now) → OnOk result (out.new.items ≡ out.old.items
        ++ flat_map (λ m. fired_at all.now (awaited_at (page_in (standing page.now)) template event.now m) m) (steps_up steps node (standing page.now).tree)) }
{
    if steps == 0 {
        return Ok(());
    }
    let Some(parent) = page.parent_of(node) else {
        return Ok(());
    };
    let Some(line) = page.line_of(node) else {
        return Ok(());
    };
    put_waiting(all, template, line, event, node, out)?;
    put_way(all, page, template, parent, event, steps - 1, out)?;
    Ok(())
}
