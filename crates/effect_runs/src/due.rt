// Whether an effect is due.
ghost use Rattle.std.specs.Prelude.{◌≡◌, ◌∷◌, [], not, IfOk, IfSome, OnOk};
ghost use Rattle.std.specs.List.{list_all};
ghost use Rattle.std.specs.Option.{option_copied};
ghost use Rattle.signal_model.specs.Recipes.{Hosts};
ghost use Rattle.signal_model.specs.Values.{value_of};
ghost use Rattle.signal_model.specs.Kept.{AreKept};
ghost use Rattle.effect_model.specs.Runs.{is_effect_due, looked_at, looked_names, some_differs};
ghost use Rattle.sig_computed.specs.Scenes.{scene, CanSettle, Settles};
ghost use Rattle.sig_base.specs.Values.{same_outcome};
ghost use Rattle.effect_runs.specs.Evaluations.{is_still, IsToldOf};

use sig_base::{NoMemory, Outcome};
use sig_computed::{RunNote, settle};
use sig_graph::Graph;
use sig_host::{Lent, Shelf};
use sig_untrack::Read;

// Whether what was read is a cell that has the value still that was read. It is looked at where it stands.
fn is_still(graph: &Graph, read: &Read) -> bool
    ensures { result ≡ is_still graph.now.state.signals read.now }
{
    let Some(value) = graph.cell_value(read.id) else {
        return false;
    };
    match &read.outcome {
        Outcome::Good(kept) => value.same(kept),
        Outcome::Bad(_) => false,
    }
}

/// Whether each of these reads is of a cell that has the value still that was read. They are looked at where they stand: nothing is settled, and
/// no value is copied.
pub fn are_still(graph: &Graph, reads: &[Read]) -> bool
    ensures { result ≡ list_all (is_still graph.now.state.signals) reads.now }
{
    reads.iter().all(|read| is_still(graph, read))
}

// Whether what was read is a cell that has the value still that was read; nothing where it is none. It is looked at where it stands.
fn cell_still(graph: &Graph, read: &Read) -> Option<bool>
    ensures { IfSome result (IsToldOf graph.now.state.signals read.now) }
{
    let value = graph.cell_value(read.id)?;
    match &read.outcome {
        Outcome::Good(kept) => Some(value.same(kept)),
        Outcome::Bad(_) => Some(false),
    }
}

// Settles what was read, and tells whether it has another outcome now. Where it is a cell there is nothing to settle, and no value is copied.
fn differs_now(
    graph: &mut Graph,
    shelf: &mut Shelf,
    read: &Read,
    notes: &mut Vec<RunNote>,
) -> Result<bool, NoMemory>
    requires can { CanSettle (scene graph.old (⟦<Shelf as Lent>⟧.asked shelf.old) notes.old.items) }
    requires counted { ⟦<Shelf as Lent>⟧.counted shelf.old }
    ensures differs { (hosts : Hosts) → ⟦<Shelf as Lent>⟧.answers hosts shelf.old → AreKept hosts graph.old.state.signals graph.old.state.memos →
        IfOk result (λ b. b ≡ not (same_outcome (value_of hosts graph.old.state.signals read.now.name []) read.now.outcome)) }
    ensures settles { OnOk result (Settles
        (scene graph.old (⟦<Shelf as Lent>⟧.asked shelf.old) notes.old.items) (scene graph.new (⟦<Shelf as Lent>⟧.asked shelf.new) notes.new.items)
        (λ hosts. ⟦<Shelf as Lent>⟧.answers hosts shelf.old) (λ hosts. ⟦<Shelf as Lent>⟧.answers hosts shelf.new) (λ _. read.now.name ∷ [])) }
    ensures can { OnOk result (CanSettle (scene graph.new (⟦<Shelf as Lent>⟧.asked shelf.new) notes.new.items)) }
    ensures counted { OnOk result (⟦<Shelf as Lent>⟧.counted shelf.new) }
{
    let _count = notes.len();
    match cell_still(graph, read) {
        Some(still) => Ok(!still),
        None => {
            let outcome = settle(graph, shelf, read.id, notes)?;
            let same = outcome.same(&read.outcome);
            Ok(!same)
        }
    }
}

// Settles what was read up to the first signal that has another outcome now; whether there is one.
fn look_at(
    graph: &mut Graph,
    shelf: &mut Shelf,
    reads: &[Read],
    notes: &mut Vec<RunNote>,
) -> Result<bool, NoMemory>
    requires can { CanSettle (scene graph.old (⟦<Shelf as Lent>⟧.asked shelf.old) notes.old.items) }
    requires counted { ⟦<Shelf as Lent>⟧.counted shelf.old }
    ensures differs { (hosts : Hosts) → ⟦<Shelf as Lent>⟧.answers hosts shelf.old → AreKept hosts graph.old.state.signals graph.old.state.memos →
        IfOk result (λ b. b ≡ some_differs (λ m. value_of hosts graph.old.state.signals m []) reads.now) }
    ensures after { OnOk result (Settles
        (scene graph.old (⟦<Shelf as Lent>⟧.asked shelf.old) notes.old.items) (scene graph.new (⟦<Shelf as Lent>⟧.asked shelf.new) notes.new.items)
        (λ hosts. ⟦<Shelf as Lent>⟧.answers hosts shelf.old) (λ hosts. ⟦<Shelf as Lent>⟧.answers hosts shelf.new)
        (λ hosts. looked_at (λ m. value_of hosts graph.old.state.signals m []) reads.now)) }
    ensures can { OnOk result (CanSettle (scene graph.new (⟦<Shelf as Lent>⟧.asked shelf.new) notes.new.items)) }
    ensures counted { OnOk result (⟦<Shelf as Lent>⟧.counted shelf.new) }
{
    for read in reads {
        let differs = differs_now(graph, shelf, read, notes)?;
        if differs {
            return Ok(true);
        }
    }
    Ok(false)
}

/// Whether an effect is due, by what it keeps of its last run: where it has never run, or where a signal that it read, tracked, has another
/// outcome now. What it read is settled in order, up to the first that differs, and nothing else is. A cell is looked at where it stands: there is
/// nothing to settle, and no value is copied.
///
/// # Errors
///
/// After `NoMemory` graph and shelf may only be dropped.
pub fn look(
    graph: &mut Graph,
    shelf: &mut Shelf,
    kept: Option<&[Read]>,
    notes: &mut Vec<RunNote>,
) -> Result<bool, NoMemory>
    requires can { CanSettle (scene graph.old (⟦<Shelf as Lent>⟧.asked shelf.old) notes.old.items) }
    requires counted { ⟦<Shelf as Lent>⟧.counted shelf.old }
    ensures due { (hosts : Hosts) → ⟦<Shelf as Lent>⟧.answers hosts shelf.old → AreKept hosts graph.old.state.signals graph.old.state.memos →
        IfOk result (λ b. b ≡ is_effect_due (λ m. value_of hosts graph.old.state.signals m []) (option_copied kept.entry)) }
    ensures after { OnOk result (Settles
        (scene graph.old (⟦<Shelf as Lent>⟧.asked shelf.old) notes.old.items) (scene graph.new (⟦<Shelf as Lent>⟧.asked shelf.new) notes.new.items)
        (λ hosts. ⟦<Shelf as Lent>⟧.answers hosts shelf.old) (λ hosts. ⟦<Shelf as Lent>⟧.answers hosts shelf.new)
        (λ hosts. looked_names (λ m. value_of hosts graph.old.state.signals m []) (option_copied kept.entry))) }
    ensures can { OnOk result (CanSettle (scene graph.new (⟦<Shelf as Lent>⟧.asked shelf.new) notes.new.items)) }
    ensures counted { OnOk result (⟦<Shelf as Lent>⟧.counted shelf.new) }
{
    let Some(reads) = kept else {
        return Ok(true);
    };
    let differs = look_at(graph, shelf, reads, notes)?;
    Ok(differs)
}
