// What a template shows from scratch.
ghost use Rattle.std.specs.Prelude.{◌≡◌, ◌<◌, ◌^◌, None, Some, IfOk, OnOk, length, replicate, slice_set};
ghost use Rattle.signal_model.specs.Recipes.{Hosts};
ghost use Rattle.signal_model.specs.Kept.{AreKept};
ghost use Rattle.sig_host.specs.Hosts.{most_asked};
ghost use Rattle.sig_computed.specs.Asked.{AreThere};
ghost use Rattle.sig_computed.specs.Notes.{IsIdle};
ghost use Rattle.page_model.specs.Pages.{bare, tree_of};
ghost use Rattle.tpl_model.specs.Laws.{IsTemplate};
ghost use Rattle.tpl_model.specs.Sources.{template_asked};
ghost use Rattle.tpl_model.specs.Updates.{updated};
ghost use Rattle.tpl_blocks.specs.Blocks.{lines_of};
ghost use Rattle.tpl_hearing.specs.Heard.{scene, Settles};

use crate::first::tree_below;
use page_tree::Tree;
use sig_base::{NoMemory, NodeId, Outcome};
use sig_computed::RunNote;
use sig_graph::Graph;
use sig_host::{Lent, Shelf};
use std::alloc::Global;
use tpl_hearing::{Outcomes, hear};
use tpl_scratch::{ScratchStep, page_from_scratch};
use tpl_syntax::Template;

// So many names, of none of which the outcome is known.
fn none_known(alloc: Global, count: usize) -> Result<Vec<Option<Outcome>>, NoMemory>
    ensures { IfOk result (λ known. known.items ≡ replicate count None) }
{
    let mut known = Vec::new(alloc);
    for _ in 0..count {
        known.push(None)?;
    }
    Ok(known)
}

// The outcome of the name at a place is known now.
fn put_outcome(known: &mut Vec<Option<Outcome>>, place: usize, outcome: Outcome)
    requires { place < length known.old.items }
    ensures { known.new.items ≡ slice_set known.old.items place (Some outcome) }
{
    known[place] = Some(outcome);
}

/// The tree of what a template shows from scratch whose names are these signals, as it is on a page that is mounted now. It is asked for with
/// the outcomes that are known so far, until none is needed that isn't: the names that its lines read are settled, each once, in the order in
/// which they are first read. Host formulas are asked exactly as the runs of this call ask them. Signals stay, and nothing is being evaluated
/// before and after. Without memory graph and shelf may only be dropped. Its clauses are those of the mounting of a page, with the tree alone in
/// place of the page and its operations.
///
/// # Errors
///
/// `NoMemory` alone.
pub fn tree_from_scratch(
    graph: &mut Graph,
    shelf: &mut Shelf,
    template: &Template,
    links: &[NodeId],
    notes: &mut Vec<RunNote>,
) -> Result<Tree, NoMemory>
    requires template { IsTemplate (lines_of template.now) }
    requires idle { IsIdle graph.old.state }
    requires worn { graph.old.state.worn < 2 ^ 126 }
    requires counted { ⟦<Shelf as Lent>⟧.counted shelf.old }
    requires there { AreThere graph.old.state.signals (⟦<Shelf as Lent>⟧.asked shelf.old) }
    requires room { most_asked (⟦<Shelf as Lent>⟧.asked shelf.old) < 2 ^ 126 }
    ensures tree { (hosts : Hosts) → ⟦<Shelf as Lent>⟧.answers hosts shelf.old → AreKept hosts graph.old.state.signals graph.old.state.memos → IfOk result (λ t.
        t ≡ tree_of (updated hosts graph.old.state.signals (lines_of template.now) links.now graph.old.state.memos bare).page) }
    ensures settles { OnOk result (Settles
        (scene graph.old (⟦<Shelf as Lent>⟧.asked shelf.old) notes.old.items) (scene graph.new (⟦<Shelf as Lent>⟧.asked shelf.new) notes.new.items)
        (λ hosts. ⟦<Shelf as Lent>⟧.answers hosts shelf.old) (λ hosts. ⟦<Shelf as Lent>⟧.answers hosts shelf.new)
        (λ hosts. template_asked hosts graph.old.state.signals (lines_of template.now) links.now)) }
    ensures counted { OnOk result (⟦<Shelf as Lent>⟧.counted shelf.new) }
{
    let alloc = *notes.allocator();
    let mut heard = Outcomes::new(alloc);
    let mut known = none_known(alloc, links.len())?;
    'asking: loop {
        let name = match page_from_scratch(alloc, template, &known)? {
            ScratchStep::Ask(name) => name as usize,
            ScratchStep::Page(subs) => {
                heard.good();
                let tree = tree_below(alloc, subs)?;
                return Ok(tree);
            }
        };
        let outcome = hear(graph, shelf, &mut heard, links[name], notes)?;
        put_outcome(&mut known, name, outcome);
    }
}
