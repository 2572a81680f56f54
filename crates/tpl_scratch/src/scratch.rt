// A page from scratch.
ghost use Rattle.std.specs.Prelude.{◌≡◌, IfOk};
ghost use Rattle.tpl_blocks.specs.Blocks.{lines_of};
ghost use Rattle.tpl_scratch.specs.Pages.{nodes_of};
ghost use Rattle.tpl_scratch.specs.Scratch.{Comes, IsScratch};

use crate::nodes::Nodes;
use crate::show::show;
use crate::stop::Stop;
use page_tree::Sub;
use sig_base::{NoMemory, Outcome};
use std::alloc::Global;
use tpl_blocks::block_of;
use tpl_syntax::Template;

/// What making a page from scratch comes to.
#[derive(Drop)]
pub enum ScratchStep {
    /// The outcome of this name, by its place in the template, is needed next.
    Ask(u32),
    /// What the template shows: the children of the root, numbered in document order from 1.
    Page(Vec<Sub>),
}

// What was made, or the name that stopped it.
fn step_of(shown: Result<bool, Stop>, out: Nodes) -> Result<ScratchStep, NoMemory>
    ensures { IfOk result (λ s. Comes shown (nodes_of out) s) }
{
    let Nodes { subs, next: _next } = out;
    match shown {
        Ok(_) => Ok(ScratchStep::Page(subs)),
        Err(Stop::Ask(name)) => Ok(ScratchStep::Ask(name)),
        Err(Stop::NoMemory) => Err(NoMemory),
    }
}

/// What a template shows where some outcomes of its names are known, each at the place of its name: the page, or the name that is needed
/// first, in document order, and isn't known. Attributes are read before children, of a choice the test and then one branch, and the lines of
/// a loop once for each row; of what is tried the first part, up to the first line that meets a fault, and then the second. Nothing is read that isn't needed, so a caller who learns each name that is asked for, in turn, settles the names
/// that the template reads and no others.
///
/// # Errors
///
/// `NoMemory` alone.
pub fn page_from_scratch(
    alloc: Global,
    template: &Template,
    known: &[Option<Outcome>],
) -> Result<ScratchStep, NoMemory>
    ensures { IfOk result (λ s. IsScratch known.now (lines_of template.now) s) }
{
    let block = block_of(alloc, template)?;
    let lines = Box::new(alloc, block)?;
    let mut out = Nodes::new(alloc);
    let shown = show(alloc, &lines, false, None, known, &mut out);
    let step = step_of(shown, out)?;
    Ok(step)
}
