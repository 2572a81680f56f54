// The rows of lists, as edits find and leave them.
ghost use Rattle.std.specs.Prelude.{◌≡◌, None, IfOk};
ghost use Rattle.live_model.specs.Rows.{edit_refusal, edited, rows_at};

use effect_world::World;
use live_cmd::RowEdit;
use live_entries::Refusal;
use row_edits::{edited, refusal};
use sig_base::{NoMemory, NodeId, Rows, Value};
use sig_rows::new_rows;
use std::alloc::Global;

// The rows of the list of a number; none of no fields where no list stands.
fn rows_at(alloc: Global, world: &World, list: NodeId) -> Result<Rows, NoMemory>
    ensures { IfOk result (λ rows. rows ≡ rows_at world.now.graph.state.signals list) }
{
    match world.graph.cell_value(list) {
        Some(Value::Rows(rows)) => Ok(rows.copy()?),
        _ => new_rows(alloc, Vec::new(alloc)),
    }
}

/// Why the rows of a list don't allow an edit, if so it is.
///
/// # Errors
///
/// `NoMemory` alone.
pub fn edit_refusal(
    alloc: Global,
    world: &World,
    list: NodeId,
    edit: &RowEdit,
) -> Result<Option<Refusal>, NoMemory>
    ensures { IfOk result (λ r. r ≡ edit_refusal edit.now (rows_at world.now.graph.state.signals list)) }
{
    let rows = rows_at(alloc, world, list)?;
    let refusal = refusal(&rows, edit)?;
    Ok(refusal)
}

/// The rows of a list behind an edit that they allow.
///
/// # Errors
///
/// `NoMemory` alone.
pub(crate) fn edited_rows(
    alloc: Global,
    world: &World,
    list: NodeId,
    edit: &RowEdit,
) -> Result<Rows, NoMemory>
    requires { edit_refusal edit.now (rows_at world.now.graph.state.signals list) ≡ None }
    ensures { IfOk result (λ rows. rows ≡ edited edit.now (rows_at world.now.graph.state.signals list)) }
{
    let rows = rows_at(alloc, world, list)?;
    let now = edited(alloc, &rows, edit)?;
    Ok(now)
}
