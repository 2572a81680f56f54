// What a page keeps of its template's lines.
ghost use Rattle.std.specs.Prelude.{◌≡◌, map, IfOk};
ghost use Rattle.tpl_model.specs.PageUpdates.PageMemos as model;
ghost use Rattle.tpl_model.specs.KeptLines.Kept.{heard_of, kept, rows_of};

use sig_base::{NoMemory, NodeId, Outcome};
use std::alloc::Global;

/// What a formula of a line read, by name and in order, and what it came to.
pub struct Heard {
    pub names: Vec<NodeId>,
    pub outcome: Outcome,
}

impl Drop for Heard {
    fn drop(self) {
        let Heard {
            names: _,
            outcome: _,
        } = self;
    }
}

/// What is kept of lines one after the other, each with what was heard of it and what is kept inside it.
#[derive(Drop)]
pub enum PageMemo {
    /// Lines that were not read.
    Unread,
    /// No more lines.
    Blank,
    /// A text.
    Line(Heard, Box<PageMemo>),
    /// An element: its attributes, and what is kept of the lines inside it.
    Element(Vec<Heard>, Box<PageMemo>, Box<PageMemo>),
    /// A choice: its test, and what is kept of the branch that is shown.
    Branch(Heard, Box<PageMemo>, Box<PageMemo>),
    /// A loop: its rows, and what is kept for each of them, in the same order.
    Loop(Heard, Vec<PageMemo>, Box<PageMemo>),
    /// What is tried: what is kept of its first part, up to the first line that met a fault, and of its second part, which wasn't read where the
    /// first is shown.
    Either(Box<PageMemo>, Box<PageMemo>, Box<PageMemo>),
}

impl PageMemo {
    /// What is kept of no lines.
    #[tactic(auto, using(crate::proofs::MemoEquations::kept_blank))]
    pub fn blank() -> PageMemo
        ensures { kept result ≡ model.blank }
    {
        PageMemo::Blank
    }

    /// What is kept where nothing was read.
    #[tactic(auto, using(crate::proofs::MemoEquations::kept_unread))]
    pub fn unread() -> PageMemo
        ensures { kept result ≡ model.unread }
    {
        PageMemo::Unread
    }

    /// A text before what is kept behind it.
    ///
    /// # Errors
    ///
    /// `NoMemory` alone.
    #[tactic(auto, using(crate::proofs::MemoEquations::kept_line))]
    pub fn text(alloc: Global, heard: Heard, rest: PageMemo) -> Result<PageMemo, NoMemory>
        ensures { IfOk result (λ m. kept m ≡ model.line (heard_of heard) (kept rest)) }
    {
        Ok(PageMemo::Line(heard, Box::new(alloc, rest)?))
    }

    /// An element before what is kept behind it.
    ///
    /// # Errors
    ///
    /// `NoMemory` alone.
    #[tactic(auto, using(crate::proofs::MemoEquations::kept_element))]
    pub fn element(
        alloc: Global,
        attributes: Vec<Heard>,
        inner: PageMemo,
        rest: PageMemo,
    ) -> Result<PageMemo, NoMemory>
        ensures { IfOk result (λ m. kept m ≡ model.element (map heard_of attributes.items) (kept inner) (kept rest)) }
    {
        let inner = Box::new(alloc, inner)?;
        let rest = Box::new(alloc, rest)?;
        Ok(PageMemo::Element(attributes, inner, rest))
    }

    /// A choice before what is kept behind it.
    ///
    /// # Errors
    ///
    /// `NoMemory` alone.
    #[tactic(auto, using(crate::proofs::MemoEquations::kept_branch))]
    pub fn branch(
        alloc: Global,
        test: Heard,
        inner: PageMemo,
        rest: PageMemo,
    ) -> Result<PageMemo, NoMemory>
        ensures { IfOk result (λ m. kept m ≡ model.branch (heard_of test) (kept inner) (kept rest)) }
    {
        let inner = Box::new(alloc, inner)?;
        let rest = Box::new(alloc, rest)?;
        Ok(PageMemo::Branch(test, inner, rest))
    }

    /// A loop before what is kept behind it: what is kept for each of its rows, in their order.
    ///
    /// # Errors
    ///
    /// `NoMemory` alone.
    #[tactic(auto, using(crate::proofs::MemoEquations::kept_loop))]
    pub fn rows(
        alloc: Global,
        rows: Heard,
        inner: Vec<PageMemo>,
        rest: PageMemo,
    ) -> Result<PageMemo, NoMemory>
        ensures { IfOk result (λ m. kept m ≡ model.loop (heard_of rows) (rows_of rows.outcome (map kept inner.items)) (kept rest)) }
    {
        Ok(PageMemo::Loop(rows, inner, Box::new(alloc, rest)?))
    }

    /// What is tried, before what is kept behind it: what is kept of both parts.
    ///
    /// # Errors
    ///
    /// `NoMemory` alone.
    #[tactic(auto, using(crate::proofs::MemoEquations::kept_either))]
    pub fn either(
        alloc: Global,
        first: Box<PageMemo>,
        second: Box<PageMemo>,
        rest: PageMemo,
    ) -> Result<PageMemo, NoMemory>
        ensures { IfOk result (λ m. kept m ≡ model.either (kept first.value) (kept second.value) (kept rest)) }
    {
        Ok(PageMemo::Either(first, second, Box::new(alloc, rest)?))
    }
}
