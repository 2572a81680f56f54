// The children of a node whose inside is gone over.
ghost use Rattle.std.specs.Prelude.{◌≡◌, ◌++◌, [], None, map, IfOk, OnOk};
ghost use Rattle.tpl_blocks.specs.Blocks.{block};
ghost use Rattle.tpl_drawn.specs.Comparison.{is_plain};
ghost use Rattle.tpl_drawn.specs.Marks.{children_in};
ghost use Rattle.tpl_drawn.specs.Walks.{where_listed};
ghost use Rattle.tpl_model.specs.ShownNodes.Shapes.{all_shown, child_of};

use page_tree::Tree;
use sig_base::NoMemory;
use std::alloc::Global;
use tpl_blocks::Block;
use tpl_model::{Child, Shown};

/// Whether lines are texts and elements alone, which always show the same topmost nodes.
pub fn is_plain(lines: &Block) -> bool
    ensures { result ≡ is_plain (block lines.now) }
{
    match lines {
        Block::Empty => true,
        Block::Text(_, _, rest) => is_plain(rest),
        Block::Tag(_, _, _, _, rest) => is_plain(rest),
        Block::Choice(_, _, _, _) => false,
        Block::Each(_, _, _) => false,
        Block::Attempt(_, _, _) => false,
    }
}

/// Room for the next children of a node, as many as it has, where they are listed.
///
/// # Errors
///
/// `NoMemory` alone.
pub fn room_for(
    alloc: Global,
    listed: bool,
    tree: &Tree,
    number: u64,
) -> Result<Vec<Child>, NoMemory>
    ensures { IfOk result (λ v. v.items ≡ []) }
{
    if !listed {
        return Ok(Vec::new(alloc));
    }
    let children = Vec::with_capacity(alloc, tree.children(number).len())?;
    Ok(children)
}

// Appends children.
fn put_all(more: Vec<Child>, children: &mut Vec<Child>) -> Result<(), NoMemory>
    ensures { OnOk result (map child_of children.new.items ≡ map child_of children.old.items ++ map child_of more.items) }
{
    for child in more {
        children.push(child)?;
    }
    Ok(())
}

/// Appends children, where they are listed.
///
/// # Errors
///
/// `NoMemory` alone.
pub fn put_children(
    listed: bool,
    more: Vec<Child>,
    children: &mut Vec<Child>,
) -> Result<(), NoMemory>
    ensures { OnOk result (map child_of children.new.items ≡ map child_of children.old.items ++ where_listed listed (map child_of more.items)) }
{
    if !listed {
        return Ok(());
    }
    put_all(more, children)?;
    Ok(())
}

/// Appends nodes that are all new.
///
/// # Errors
///
/// `NoMemory` alone.
pub fn put_new(nodes: Vec<Shown>, children: &mut Vec<Child>) -> Result<(), NoMemory>
    ensures { OnOk result (map child_of children.new.items ≡ map child_of children.old.items ++ children_in (λ a. None) (all_shown nodes.items)) }
{
    for node in nodes {
        let coming = Box::new(*children.allocator(), node)?;
        children.push(Child::New(coming))?;
    }
    Ok(())
}
