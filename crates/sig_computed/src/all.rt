// Names that are settled one after the other.
ghost use Rattle.std.specs.Prelude.{◌≡◌, [], List, map, IfOk, OnOk};
ghost use Rattle.signal_model.specs.Recipes.{Hosts};
ghost use Rattle.signal_model.specs.Values.{value_of};
ghost use Rattle.signal_model.specs.Kept.{AreKept};
ghost use Rattle.sig_computed.specs.Scenes.{scene, CanSettle, Settles};

use crate::notes::RunNote;
use crate::settler::settle;
use sig_base::{NoMemory, NodeId, Outcome};
use sig_graph::Graph;
use sig_host::{Lent, Shelf};

/// Settles signals in order, gone ones too, and gives their outcomes, which are their values from scratch.
///
/// # Errors
///
/// `NoMemory` alone; names may then have been settled.
pub fn settle_all(
    graph: &mut Graph,
    shelf: &mut Shelf,
    ids: &[NodeId],
    notes: &mut Vec<RunNote>,
) -> Result<Vec<Outcome>, NoMemory>
    requires can { CanSettle (scene graph.old (⟦<Shelf as Lent>⟧.asked shelf.old) notes.old.items) }
    requires counted { ⟦<Shelf as Lent>⟧.counted shelf.old }
    ensures values { (hosts : Hosts) → ⟦<Shelf as Lent>⟧.answers hosts shelf.old → AreKept hosts graph.old.state.signals graph.old.state.memos →
        IfOk result (λ os. os.items ≡ map (λ n. value_of hosts graph.old.state.signals n []) ids.now) }
    ensures settles { OnOk result (Settles
        (scene graph.old (⟦<Shelf as Lent>⟧.asked shelf.old) notes.old.items) (scene graph.new (⟦<Shelf as Lent>⟧.asked shelf.new) notes.new.items)
        (λ hosts. ⟦<Shelf as Lent>⟧.answers hosts shelf.old) (λ hosts. ⟦<Shelf as Lent>⟧.answers hosts shelf.new) (λ _. ids.now)) }
    ensures can { OnOk result (CanSettle (scene graph.new (⟦<Shelf as Lent>⟧.asked shelf.new) notes.new.items)) }
    ensures counted { OnOk result (⟦<Shelf as Lent>⟧.counted shelf.new) }
{
    let mut outcomes = Vec::new(*notes.allocator());
    for id in ids {
        let _count = notes.len();
        let outcome = settle(graph, shelf, *id, notes)?;
        outcomes.push(outcome)?;
    }
    Ok(outcomes)
}
