// A batch of a graph with a cell, with ample memory.
ghost use Rattle.std.specs.Prelude.{◌≡◌};
ghost use Rattle.sig_graph.specs.States.{no_state};

use crate::watchers::no_signals;
use sig_base::{NoMemory, Value};
use sig_graph::Graph;
use sig_state::Batch;
use std::alloc::Global;
use std::test::Fail;

// Whether nothing was changed in a batch that begins.
fn begins_empty(alloc: Global, graph: &Graph) -> Result<bool, NoMemory> {
    let batch = Batch::begin(alloc, graph)?;
    Ok(batch.len() == 0 && batch.cell_at(0).is_none() && batch.old_at(0).is_none())
}

// Whether it is so beside a new cell.
fn begins_beside_a_cell(alloc: Global, graph: &mut Graph) -> Result<bool, Fail>
    requires { graph.old.state ≡ no_state }
{
    let _cell = graph.add_cell(Value::Int(1), None)?;
    let empty = begins_empty(alloc, graph)?;
    Ok(empty)
}

#[test]
fn a_batch_begins_empty(rt: HostRuntime) -> Result<(), Fail> {
    let alloc = rt.alloc();
    let mut graph = no_signals(alloc)?;
    assert!(rt; begins_beside_a_cell(alloc, &mut graph)?);
    Ok(())
}
