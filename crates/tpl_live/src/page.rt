// Pages of templates.
ghost use Rattle.std.specs.Prelude.{◌≡◌, ◌<◌, ◌^◌, ℕ, None, Some, List, if◌then◌else◌, map, IfOk, OnOk};
ghost use Rattle.signal_model.specs.Recipes.{Hosts};
ghost use Rattle.signal_model.specs.Kept.{AreKept};
ghost use Rattle.sig_host.specs.Hosts.{most_asked};
ghost use Rattle.sig_computed.specs.Asked.{AreThere};
ghost use Rattle.sig_computed.specs.Notes.{IsIdle};
ghost use Rattle.page_model.specs.Forest.{parent};
ghost use Rattle.page_model.specs.Pages.{bare};
ghost use Rattle.page_model.specs.Replay.{below_root};
ghost use Rattle.event_model.specs.Ways.{line_on};
ghost use Rattle.page_ops.specs.Ops.{op_of};
ghost use Rattle.tpl_model.specs.Laws.{IsTemplate};
ghost use Rattle.tpl_model.specs.Lines.{Line};
ghost use Rattle.tpl_model.specs.Sources.{template_asked};
ghost use Rattle.tpl_model.specs.Updates.{updated};
ghost use Rattle.tpl_blocks.specs.Blocks.{lines_of};
ghost use Rattle.tpl_hearing.specs.Heard.{scene, Settles};
ghost use Rattle.tpl_live.specs.Pages.{page_in, IsStanding, Stands};
ghost use Rattle.tpl_live.specs.Contents.{standing};

use crate::first::{First, first_nodes};
use crate::plan::carry;
use page_ops::Op;
use page_tree::Tree;
use sig_base::{NoMemory, NodeId};
use sig_computed::RunNote;
use sig_graph::Graph;
use sig_host::{Lent, Shelf};
use tpl_blocks::{Block, block_of};
use tpl_drawn::PageNodes;
use tpl_hearing::{Outcomes, Rehearing, hear_all_again};
use tpl_kept::{Renewed, make, renew};
use tpl_model::PageMemo;
use tpl_syntax::Template;

/// A page that is made from a template and stands on signals: what it keeps of the template's lines and of the names that it read, and its nodes.
pub struct Page {
    lines: Box<Block>,
    links: Vec<NodeId>,
    heard: Outcomes,
    memo: Box<PageMemo>,
    nodes: PageNodes,
}

impl Drop for Page {
    fn drop(self) {
        let Page {
            lines: _,
            links: _,
            heard: _,
            memo: _,
            nodes: _,
        } = self;
    }
}

impl Page {
    /// Its tree.
    pub fn tree(&self) -> &Tree
        ensures { result.now ≡ (standing self.now).tree }
    {
        &self.nodes.tree
    }

    /// The line of the template from which a node comes, counted from 1; None exactly where there is no such node or it is the root.
    pub fn line_of(&self, id: u64) -> Option<usize>
        ensures { (lines : List Line) (links : List ℕ) → Stands lines links (standing self.now) →
            result ≡ (if below_root id (standing self.now).tree then Some (line_on (page_in (standing self.now)) id) else None) }
    {
        self.nodes.line(id)
    }

    /// The node under which a node stands; None exactly where there is no such node or it is the root.
    pub fn parent_of(&self, id: u64) -> Option<u64>
        ensures { result ≡ (if below_root id (standing self.now).tree then Some (parent id (standing self.now).tree) else None) }
    {
        self.nodes.tree.parent_of(id)
    }

    /// A page of a template whose names are these signals, up to date, and the operations that make it of the bare page: the names that
    /// its lines read are settled, each once, in the order in which they are first read. Host formulas are asked exactly as the runs of this
    /// call ask them. Signals stay, and nothing is being evaluated before and after. Without memory graph and shelf may only be dropped. Template,
    /// graph, shelf and counters are asked for apart; page and operations are told where what is kept is sound, and that the page stands, what was
    /// settled, and that the counts are right in clauses apart, as these need no such thing.
    ///
    /// # Errors
    ///
    /// `NoMemory` alone.
    pub fn mount(
        graph: &mut Graph,
        shelf: &mut Shelf,
        template: &Template,
        links: Vec<NodeId>,
        notes: &mut Vec<RunNote>,
    ) -> Result<(Page, Vec<Op>), NoMemory>
        requires template { IsTemplate (lines_of template.now) }
        requires idle { IsIdle graph.old.state }
        requires worn { graph.old.state.worn < 2 ^ 126 }
        requires counted { ⟦<Shelf as Lent>⟧.counted shelf.old }
        requires there { AreThere graph.old.state.signals (⟦<Shelf as Lent>⟧.asked shelf.old) }
        requires room { most_asked (⟦<Shelf as Lent>⟧.asked shelf.old) < 2 ^ 126 }
        ensures stands { IfOk result (λ r. Stands (lines_of template.now) links.items (standing r.0)) }
        ensures page { (hosts : Hosts) → ⟦<Shelf as Lent>⟧.answers hosts shelf.old → AreKept hosts graph.old.state.signals graph.old.state.memos → IfOk result (λ r.
            page_in (standing r.0) ≡ (updated hosts graph.old.state.signals (lines_of template.now) links.items graph.old.state.memos bare).page) }
        ensures ops { (hosts : Hosts) → ⟦<Shelf as Lent>⟧.answers hosts shelf.old → AreKept hosts graph.old.state.signals graph.old.state.memos → IfOk result (λ r.
            map op_of r.1.items ≡ (updated hosts graph.old.state.signals (lines_of template.now) links.items graph.old.state.memos bare).ops) }
        ensures settles { OnOk result (Settles
            (scene graph.old (⟦<Shelf as Lent>⟧.asked shelf.old) notes.old.items) (scene graph.new (⟦<Shelf as Lent>⟧.asked shelf.new) notes.new.items)
            (λ hosts. ⟦<Shelf as Lent>⟧.answers hosts shelf.old) (λ hosts. ⟦<Shelf as Lent>⟧.answers hosts shelf.new)
            (λ hosts. template_asked hosts graph.old.state.signals (lines_of template.now) links.items)) }
        ensures counted { OnOk result (⟦<Shelf as Lent>⟧.counted shelf.new) }
    {
        let alloc = *notes.allocator();
        let own = block_of(alloc, template)?;
        let lines = Box::new(alloc, own)?;
        let mut heard = Outcomes::new(alloc);
        let made = make(alloc, graph, shelf, &mut heard, &lines, &links, None, notes)?;
        let memo = Box::new(alloc, made)?;
        heard.good();
        let first = first_nodes(alloc, &lines, &memo)?;
        let First { nodes, ops } = first;
        let page = Page {
            lines,
            links,
            heard,
            memo,
            nodes,
        };
        Ok((page, ops))
    }

    /// Brings the page up to date with the signals, and gives the operations that lead there: nodes that stay keep their numbers, and new ones
    /// get the next numbers. The names that its lines read are settled, each once, in the order in which they are first read; a line whose names
    /// have the outcomes of before isn't evaluated, and where all have them, no line is looked at. Host formulas are asked exactly as the runs of this
    /// call ask them. Signals stay, and nothing is being evaluated before and after. Without memory graph, shelf and page may only be dropped. Its
    /// clauses are those of mounting, with a page that stands in place of the template; all but the counts are told for any lines and signals on
    /// which it stands.
    ///
    /// # Errors
    ///
    /// `NoMemory` alone.
    pub fn update(
        &mut self,
        graph: &mut Graph,
        shelf: &mut Shelf,
        notes: &mut Vec<RunNote>,
    ) -> Result<Vec<Op>, NoMemory>
        requires stands { IsStanding (standing self.old) }
        requires idle { IsIdle graph.old.state }
        requires worn { graph.old.state.worn < 2 ^ 126 }
        requires counted { ⟦<Shelf as Lent>⟧.counted shelf.old }
        requires there { AreThere graph.old.state.signals (⟦<Shelf as Lent>⟧.asked shelf.old) }
        requires room { most_asked (⟦<Shelf as Lent>⟧.asked shelf.old) < 2 ^ 126 }
        ensures stands { (lines : List Line) (links : List ℕ) → Stands lines links (standing self.old) → OnOk result (Stands lines links (standing self.new)) }
        ensures page { (lines : List Line) (links : List ℕ) → Stands lines links (standing self.old) → (hosts : Hosts) →
            ⟦<Shelf as Lent>⟧.answers hosts shelf.old → AreKept hosts graph.old.state.signals graph.old.state.memos → OnOk result (page_in (standing self.new) ≡
            (updated hosts graph.old.state.signals lines links graph.old.state.memos (page_in (standing self.old))).page) }
        ensures ops { (lines : List Line) (links : List ℕ) → Stands lines links (standing self.old) → (hosts : Hosts) →
            ⟦<Shelf as Lent>⟧.answers hosts shelf.old → AreKept hosts graph.old.state.signals graph.old.state.memos → IfOk result (λ ops. map op_of ops.items ≡
            (updated hosts graph.old.state.signals lines links graph.old.state.memos (page_in (standing self.old))).ops) }
        ensures settles { (lines : List Line) (links : List ℕ) → Stands lines links (standing self.old) → OnOk result (Settles
            (scene graph.old (⟦<Shelf as Lent>⟧.asked shelf.old) notes.old.items) (scene graph.new (⟦<Shelf as Lent>⟧.asked shelf.new) notes.new.items)
            (λ hosts. ⟦<Shelf as Lent>⟧.answers hosts shelf.old) (λ hosts. ⟦<Shelf as Lent>⟧.answers hosts shelf.new)
            (λ hosts. template_asked hosts graph.old.state.signals lines links)) }
        ensures counted { OnOk result (⟦<Shelf as Lent>⟧.counted shelf.new) }
    {
        let alloc = *notes.allocator();
        let Some(front) = hear_all_again(graph, shelf, &self.heard, 0, notes)? else {
            return Ok(Vec::new(alloc));
        };
        let mut hearing = front;
        let was = Box::replace(&mut self.memo, PageMemo::blank());
        let fresh = renew(
            alloc,
            graph,
            shelf,
            &self.heard,
            &mut hearing,
            &self.lines,
            was,
            &self.links,
            None,
            notes,
        )?;
        let Renewed { memo, change } = fresh;
        let blank = Box::replace(&mut self.memo, memo);
        drop(blank);
        hearing.heard.good();
        let ops = carry(alloc, &self.lines, &self.memo, &change, &mut self.nodes)?;
        let Rehearing { heard, .. } = hearing;
        self.heard = heard;
        Ok(ops)
    }
}
