// A graph whose signals have names, and what settling them wrote.
ghost use Rattle.std.specs.Prelude.{◌≡◌, ℕ, ◌+◌, ◌<◌, ◌++◌, ◌∷◌, [], Bool, true, IfOk, OnOk};
ghost use Rattle.std.specs.List.{All};
ghost use Rattle.settle_rows.specs.Scenes.{IsReady};

use formula_text::{Allow, Wired, read_formula};
use sig_base::{Name, NoMemory, NodeId, Outcome, Value, put_fault, put_value};
use sig_computed::{RunNote, settle, settle_all};
use sig_graph::{Graph, Recipe, Standing};
use sig_host::{HostFormula, Lent, Shelf};
use sig_words::tokens;
use std::alloc::Global;
use std::test::Fail;

/// Signals by name, what was written so far, and how many commands were done.
#[derive(Drop)]
pub(crate) struct Scene {
    alloc: Global,
    graph: Graph,
    shelf: Shelf,
    names: Vec<Name>,
    ids: Vec<NodeId>,
    out: Vec<u8>,
    commands: u64,
}

// The formula that a text spells.
fn wired(alloc: Global, text: &str) -> Result<Wired, Fail> {
    let line = text.as_bytes();
    let tokens = tokens(alloc, line)?;
    let allow = Allow {
        row: false,
        untrack: false,
    };
    let (wired, _) = read_formula(alloc, line, &tokens, 0, allow)?;
    Ok(wired)
}

// The id of a name.
fn id_of(names: &[Name], ids: &[NodeId], name: &str) -> Result<NodeId, NoMemory>
    ensures { (test : ℕ → Bool) → All (λ n. test n ≡ true) ids.now → IfOk result (λ id. test id ≡ true) }
{
    for place in 0..ids.len() {
        let id = ids[place];
        if place < names.len() && names[place].as_str() == name {
            return Ok(id);
        }
    }
    Err(NoMemory)
}

// The ids of names.
fn ids_of(
    alloc: Global,
    names: &[Name],
    ids: &[NodeId],
    wanted: &[Name],
) -> Result<Vec<NodeId>, NoMemory>
    ensures { (test : ℕ → Bool) → All (λ n. test n ≡ true) ids.now → IfOk result (λ v. All (λ n. test n ≡ true) v.items) }
{
    let mut found = Vec::new(alloc);
    for name in wanted {
        let id = id_of(names, ids, name.as_str())?;
        found.push(id)?;
    }
    Ok(found)
}

// Writes the name of an id.
fn put_name(out: &mut Vec<u8>, names: &[Name], ids: &[NodeId], id: NodeId) -> Result<(), NoMemory> {
    for place in 0..ids.len() {
        if ids[place] == id && place < names.len() {
            out.extend_from_slice(names[place].as_str().as_bytes())?;
        }
    }
    Ok(())
}

// Writes an outcome behind a name, and the end of the line.
fn put_outcome(out: &mut Vec<u8>, outcome: &Outcome) -> Result<(), NoMemory> {
    match outcome {
        Outcome::Good(value) => {
            out.extend_from_slice(b" = ")?;
            put_value(out, value)?;
        }
        Outcome::Bad(fault) => {
            out.extend_from_slice(b" ! ")?;
            put_fault(out, *fault)?;
        }
    }
    out.push(b'\n')?;
    Ok(())
}

// Writes a run.
fn put_run(
    out: &mut Vec<u8>,
    names: &[Name],
    ids: &[NodeId],
    note: &RunNote,
) -> Result<(), NoMemory> {
    out.extend_from_slice(b"run ")?;
    put_name(out, names, ids, note.id)?;
    out.extend_from_slice(b" (")?;
    let mut first = true;
    for read in note.reads.as_slice() {
        if !first {
            out.push(b' ')?;
        }
        first = false;
        put_name(out, names, ids, *read)?;
    }
    out.push(b')')?;
    put_outcome(out, &note.outcome)
}

// Writes runs.
fn put_runs(
    out: &mut Vec<u8>,
    names: &[Name],
    ids: &[NodeId],
    notes: &[RunNote],
) -> Result<(), NoMemory> {
    for note in notes {
        put_run(out, names, ids, note)?;
    }
    Ok(())
}

// Writes the runs that settling a signal took, and its outcome.
fn put_settled(
    out: &mut Vec<u8>,
    names: &[Name],
    ids: &[NodeId],
    notes: &[RunNote],
    id: NodeId,
    outcome: &Outcome,
) -> Result<(), NoMemory> {
    put_runs(out, names, ids, notes)?;
    put_name(out, names, ids, id)?;
    put_outcome(out, outcome)
}

impl Scene {
    /// No signals, and no host formulas.
    pub(crate) fn new(alloc: Global) -> Result<Scene, Fail>
        ensures ready { IfOk result (λ s. IsReady s.graph (⟦<Shelf as Lent>⟧.asked s.shelf) s.ids.items s.commands) }
        ensures counted { IfOk result (λ s. ⟦<Shelf as Lent>⟧.counted s.shelf) }
    {
        let hosts = Vec::new(alloc);
        let scene = Scene::lent(alloc, hosts)?;
        Ok(scene)
    }

    /// No signals, and these host formulas, which were never asked.
    pub(crate) fn lent(alloc: Global, hosts: Vec<Box<dyn HostFormula>>) -> Result<Scene, Fail>
        requires { All (λ h. asks h ≡ 0) hosts.items }
        ensures ready { IfOk result (λ s. IsReady s.graph (⟦<Shelf as Lent>⟧.asked s.shelf) s.ids.items s.commands) }
        ensures counted { IfOk result (λ s. ⟦<Shelf as Lent>⟧.counted s.shelf) }
    {
        let graph = Graph::new(alloc)?;
        let shelf = Shelf::new(alloc, hosts)?;
        Ok(Scene {
            alloc,
            graph,
            shelf,
            names: Vec::new(alloc),
            ids: Vec::new(alloc),
            out: Vec::new(alloc),
            commands: 0,
        })
    }

    // Gives a name to an id.
    fn name(&mut self, name: &str, id: NodeId) -> Result<(), Fail>
        ensures graph { self.new.graph ≡ self.old.graph }
        ensures shelf { self.new.shelf ≡ self.old.shelf }
        ensures ids { OnOk result (self.new.ids.items ≡ self.old.ids.items ++ id ∷ []) }
        ensures commands { self.new.commands ≡ self.old.commands }
    {
        self.names.push(Name::new(self.alloc, name)?)?;
        self.ids.push(id)?;
        Ok(())
    }

    // Counts a command; there is an end to them.
    fn count(&mut self) -> Result<(), Fail>
        ensures graph { self.new.graph ≡ self.old.graph }
        ensures shelf { self.new.shelf ≡ self.old.shelf }
        ensures ids { self.new.ids ≡ self.old.ids }
        ensures commands { OnOk result (self.new.commands ≡ self.old.commands + 1) }
        ensures few { OnOk result (self.old.commands < 1001) }
    {
        if self.commands > 1000 {
            return Err(NoMemory)?;
        }
        self.commands += 1;
        Ok(())
    }

    /// Makes a cell.
    pub(crate) fn cell(&mut self, name: &str, value: Value) -> Result<(), Fail>
        requires ready { IsReady self.old.graph (⟦<Shelf as Lent>⟧.asked self.old.shelf) self.old.ids.items self.old.commands }
        requires counted { ⟦<Shelf as Lent>⟧.counted self.old.shelf }
        ensures ready { OnOk result (IsReady self.new.graph (⟦<Shelf as Lent>⟧.asked self.new.shelf) self.new.ids.items self.new.commands) }
        ensures counted { OnOk result (⟦<Shelf as Lent>⟧.counted self.new.shelf) }
    {
        self.count()?;
        let id = self.graph.add_cell(value, None)?;
        self.name(name, id)?;
        Ok(())
    }

    /// Makes a computed of a formula's text.
    pub(crate) fn computed(&mut self, name: &str, formula: &str) -> Result<(), Fail>
        requires ready { IsReady self.old.graph (⟦<Shelf as Lent>⟧.asked self.old.shelf) self.old.ids.items self.old.commands }
        requires counted { ⟦<Shelf as Lent>⟧.counted self.old.shelf }
        ensures ready { OnOk result (IsReady self.new.graph (⟦<Shelf as Lent>⟧.asked self.new.shelf) self.new.ids.items self.new.commands) }
        ensures counted { OnOk result (⟦<Shelf as Lent>⟧.counted self.new.shelf) }
    {
        self.count()?;
        let wired = wired(self.alloc, formula)?;
        let slots = ids_of(self.alloc, &self.names, &self.ids, &wired.names)?;
        let id = self
            .graph
            .add_computed(Recipe::Formula(wired.formula), slots)?;
        self.name(name, id)?;
        Ok(())
    }

    /// Makes a computed of the host formula at a place, whose only argument has this name.
    pub(crate) fn host(&mut self, name: &str, place: usize, argument: &str) -> Result<(), Fail>
        requires ready { IsReady self.old.graph (⟦<Shelf as Lent>⟧.asked self.old.shelf) self.old.ids.items self.old.commands }
        requires counted { ⟦<Shelf as Lent>⟧.counted self.old.shelf }
        ensures ready { OnOk result (IsReady self.new.graph (⟦<Shelf as Lent>⟧.asked self.new.shelf) self.new.ids.items self.new.commands) }
        ensures counted { OnOk result (⟦<Shelf as Lent>⟧.counted self.new.shelf) }
    {
        self.count()?;
        if !self.shelf.is_there(place) {
            return Err(NoMemory)?;
        }
        let source = id_of(&self.names, &self.ids, argument)?;
        let mut slots = Vec::new(self.alloc);
        slots.push(source)?;
        let id = self.graph.add_computed(Recipe::Host(place), slots)?;
        self.name(name, id)?;
        Ok(())
    }

    /// Drops the host formula at a place, and tells how often it was asked.
    pub(crate) fn asks(&mut self, place: usize) -> Result<u128, Fail>
        requires { ⟦<Shelf as Lent>⟧.counted self.old.shelf }
        ensures { OnOk result (⟦<Shelf as Lent>⟧.counted self.new.shelf) }
    {
        if !self.shelf.is_there(place) {
            return Err(NoMemory)?;
        }
        Ok(self.shelf.drop_host(place))
    }

    /// Gives a cell another value.
    pub(crate) fn set(&mut self, name: &str, value: Value) -> Result<(), Fail>
        requires ready { IsReady self.old.graph (⟦<Shelf as Lent>⟧.asked self.old.shelf) self.old.ids.items self.old.commands }
        requires counted { ⟦<Shelf as Lent>⟧.counted self.old.shelf }
        ensures ready { OnOk result (IsReady self.new.graph (⟦<Shelf as Lent>⟧.asked self.new.shelf) self.new.ids.items self.new.commands) }
        ensures counted { OnOk result (⟦<Shelf as Lent>⟧.counted self.new.shelf) }
    {
        self.count()?;
        let id = id_of(&self.names, &self.ids, name)?;
        match self.graph.standing(id) {
            Standing::Cell => {
                self.graph.replace(id, value);
                Ok(())
            }
            _ => Err(NoMemory)?,
        }
    }

    /// Gives a computed another formula.
    pub(crate) fn rewire(&mut self, name: &str, formula: &str) -> Result<(), Fail>
        requires ready { IsReady self.old.graph (⟦<Shelf as Lent>⟧.asked self.old.shelf) self.old.ids.items self.old.commands }
        requires counted { ⟦<Shelf as Lent>⟧.counted self.old.shelf }
        ensures ready { OnOk result (IsReady self.new.graph (⟦<Shelf as Lent>⟧.asked self.new.shelf) self.new.ids.items self.new.commands) }
        ensures counted { OnOk result (⟦<Shelf as Lent>⟧.counted self.new.shelf) }
    {
        self.count()?;
        let wired = wired(self.alloc, formula)?;
        let slots = ids_of(self.alloc, &self.names, &self.ids, &wired.names)?;
        let id = id_of(&self.names, &self.ids, name)?;
        match self.graph.standing(id) {
            Standing::Cell => Err(NoMemory)?,
            _ => {
                self.graph
                    .rewire(id, Recipe::Formula(wired.formula), slots)?;
                Ok(())
            }
        }
    }

    /// Settles a signal, and writes the runs and the outcome.
    pub(crate) fn get(&mut self, name: &str) -> Result<(), Fail>
        requires ready { IsReady self.old.graph (⟦<Shelf as Lent>⟧.asked self.old.shelf) self.old.ids.items self.old.commands }
        requires counted { ⟦<Shelf as Lent>⟧.counted self.old.shelf }
        ensures ready { OnOk result (IsReady self.new.graph (⟦<Shelf as Lent>⟧.asked self.new.shelf) self.new.ids.items self.new.commands) }
        ensures counted { OnOk result (⟦<Shelf as Lent>⟧.counted self.new.shelf) }
    {
        self.count()?;
        let id = id_of(&self.names, &self.ids, name)?;
        let mut notes = Vec::new(self.alloc);
        let outcome = settle(&mut self.graph, &mut self.shelf, id, &mut notes)?;
        let _count = notes.len();
        put_settled(&mut self.out, &self.names, &self.ids, &notes, id, &outcome)?;
        Ok(())
    }

    /// Settles a list of one signal, writes the runs, and gives how many steps were counted.
    pub(crate) fn steps(&mut self, name: &str) -> Result<u128, Fail>
        requires ready { IsReady self.old.graph (⟦<Shelf as Lent>⟧.asked self.old.shelf) self.old.ids.items self.old.commands }
        requires counted { ⟦<Shelf as Lent>⟧.counted self.old.shelf }
        ensures ready { OnOk result (IsReady self.new.graph (⟦<Shelf as Lent>⟧.asked self.new.shelf) self.new.ids.items self.new.commands) }
        ensures counted { OnOk result (⟦<Shelf as Lent>⟧.counted self.new.shelf) }
    {
        self.count()?;
        let id = id_of(&self.names, &self.ids, name)?;
        let mut notes = Vec::new(self.alloc);
        let before = self.graph.looked();
        settle_all(&mut self.graph, &mut self.shelf, &[id], &mut notes)?;
        let _count = notes.len();
        put_runs(&mut self.out, &self.names, &self.ids, &notes)?;
        match self.graph.looked().checked_sub(before) {
            Some(steps) => Ok(steps),
            None => Err(NoMemory)?,
        }
    }

    /// Whether this was written.
    pub(crate) fn wrote(&self, want: &str) -> bool {
        self.out.as_slice() == want.as_bytes()
    }
}
