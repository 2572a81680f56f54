// Two cells, what was noted of their settling, and no host formulas.
ghost use Rattle.std.specs.Prelude.{IfOk};
ghost use Rattle.sig_computed.specs.Scenes.{scene, CanSettle};

use sig_base::{NodeId, Value};
use sig_computed::RunNote;
use sig_graph::Graph;
use sig_host::{Lent, Shelf};
use std::alloc::Global;
use std::test::Fail;

/// Signals, of which two are cells.
#[derive(Drop)]
pub(crate) struct Scene {
    pub(crate) graph: Graph,
    pub(crate) shelf: Shelf,
    pub(crate) notes: Vec<RunNote>,
    pub(crate) first: NodeId,
    pub(crate) second: NodeId,
}

impl Scene {
    /// Cells of these values.
    pub(crate) fn new(alloc: Global, first: i64, second: i64) -> Result<Scene, Fail>
        ensures can { IfOk result (λ s. CanSettle (scene s.graph (⟦<Shelf as Lent>⟧.asked s.shelf) s.notes.items)) }
        ensures counted { IfOk result (λ s. ⟦<Shelf as Lent>⟧.counted s.shelf) }
    {
        let hosts = Vec::new(alloc);
        let shelf = Shelf::new(alloc, hosts)?;
        let mut graph = Graph::new(alloc)?;
        let first = graph.add_cell(Value::Int(first), None)?;
        let second = graph.add_cell(Value::Int(second), None)?;
        let notes = Vec::new(alloc);
        Ok(Scene {
            graph,
            shelf,
            notes,
            first,
            second,
        })
    }
}
