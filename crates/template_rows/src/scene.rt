// Two cells, what was noted of their settling, and no host formulas.
ghost use Rattle.std.specs.Prelude.{IfOk};
ghost use Rattle.tpl_hearing.specs.Heard.{scene, CanSettle};

use sig_base::{NoMemory, NodeId, Outcome, Value};
use sig_computed::RunNote;
use sig_formula::{BinOp, Formula};
use sig_graph::Graph;
use sig_host::{Lent, Shelf};
use std::alloc::Global;
use std::test::Fail;

/// A graph with two cells.
#[derive(Drop)]
pub(crate) struct Scene {
    pub(crate) graph: Graph,
    pub(crate) shelf: Shelf,
    pub(crate) notes: Vec<RunNote>,
    pub(crate) first: NodeId,
    pub(crate) second: NodeId,
}

/// Whether an outcome is this number.
pub(crate) fn is_number(outcome: &Outcome, wanted: i64) -> bool {
    match outcome {
        Outcome::Good(Value::Int(n)) => *n == wanted,
        _ => false,
    }
}

impl Scene {
    /// Cells of these numbers.
    pub(crate) fn of_numbers(alloc: Global, first: i64, second: i64) -> Result<Scene, Fail>
        ensures can { IfOk result (λ s. CanSettle (scene s.graph (⟦<Shelf as Lent>⟧.asked s.shelf) s.notes.items)) }
        ensures counted { IfOk result (λ s. ⟦<Shelf as Lent>⟧.counted s.shelf) }
    {
        let hosts = Vec::new(alloc);
        let shelf = Shelf::new(alloc, hosts)?;
        let mut graph = Graph::new(alloc)?;
        let first = graph.add_cell(Value::Int(first), None)?;
        let second = graph.add_cell(Value::Int(second), None)?;
        let notes = Vec::new(alloc);
        Ok(Scene {
            graph,
            shelf,
            notes,
            first,
            second,
        })
    }
}

/// The two names of a scene, by their places in it, under an operator.
pub(crate) fn of_names(
    alloc: Global,
    operator: BinOp,
    first: u32,
    second: u32,
) -> Result<Formula, NoMemory> {
    let left = Box::new(alloc, Formula::Slot(first))?;
    let right = Box::new(alloc, Formula::Slot(second))?;
    Ok(Formula::Bin(operator, left, right))
}
