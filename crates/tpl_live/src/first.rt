// The first nodes of a page, and the operations that lead to them.
ghost use Rattle.std.specs.Prelude.{◌≡◌, ◌+◌, map, length, IfOk};
ghost use Rattle.page_model.specs.Forest.{Forest, keys, node, none};
ghost use Rattle.page_model.specs.Labels.{Kind, Root, Sound};
ghost use Rattle.page_model.specs.Pages.{NumberedPage, IsPage, page_shape, tree_of};
ghost use Rattle.page_ops.specs.Ops.{op_of};
ghost use Rattle.page_tree.specs.Subs.{side_by_side, sub_tree};
ghost use Rattle.tpl_blocks.specs.Blocks.{block};
ghost use Rattle.tpl_model.specs.KeptLines.Kept.{kept};
ghost use Rattle.tpl_drawn.specs.Addresses.{number_at};
ghost use Rattle.tpl_drawn.specs.Lines.{line_at};
ghost use Rattle.tpl_live.specs.Pages.{below_in, inserts, lines_shape, shown_in, AreInserted, AreInsertions, AreKnown, AreLined};

use crate::plan::{apply_all, read_numbers};
use page_ops::Op;
use page_tree::{Sub, Tree};
use sig_base::NoMemory;
use std::alloc::Global;
use tpl_blocks::Block;
use tpl_drawn::{PageNodes, put_shown};
use tpl_model::PageMemo;
use tpl_patch::put_nodes;
use tpl_scratch::Nodes;

/// The first nodes of a page, and the operations that lead to them.
#[derive(Drop)]
pub struct First {
    pub nodes: PageNodes,
    pub ops: Vec<Op>,
}

// The insertions of nodes below the root, one behind the other.
fn insertions(alloc: Global, subs: Vec<Sub>) -> Result<Vec<Op>, NoMemory>
    ensures { IfOk result (λ ops. map op_of ops.items ≡ inserts 0 (side_by_side (map sub_tree subs.items))) }
{
    let mut ops = Vec::new(alloc);
    for sub in subs {
        let _ = sub.number();
        let place = ops.len() as u64;
        ops.push(Op::Insert(0, place, sub))?;
    }
    Ok(ops)
}

// The tree to which insertions below the root lead.
fn tree_by(alloc: Global, ops: &[Op]) -> Result<Tree, NoMemory>
    requires { AreInsertions (map op_of ops.now) }
    ensures { (below : Forest Kind) → AreInserted below → map op_of ops.now ≡ inserts 0 below → IfOk result (λ tree. tree ≡ node 0 Root below none) }
{
    let mut tree = Tree::new(alloc)?;
    apply_all(alloc, &mut tree, ops)?;
    Ok(tree)
}

/// The tree of nodes below the root.
///
/// # Errors
///
/// `NoMemory` alone.
pub fn tree_below(alloc: Global, subs: Vec<Sub>) -> Result<Tree, NoMemory>
    requires { AreInserted (side_by_side (map sub_tree subs.items)) }
    ensures { IfOk result (λ tree. tree ≡ node 0 Root (side_by_side (map sub_tree subs.items)) none) }
{
    let ops = insertions(alloc, subs)?;
    let tree = tree_by(alloc, &ops)?;
    Ok(tree)
}

/// The first nodes of a page, by what is kept of its lines: these are shown once, and tree, operations and numbers are made of that. The two
/// premises are those of the inserting and of the numbers; tree, operations and table are told apart, as they are used apart.
///
/// # Errors
///
/// `NoMemory` alone.
pub fn first_nodes(alloc: Global, lines: &Block, memo: &PageMemo) -> Result<First, NoMemory>
    requires inserted { AreInserted (below_in (block lines.now) (kept memo.now)) }
    requires sound { Sound (shown_in (block lines.now) (kept memo.now)) }
    ensures tree { IfOk result (λ f. f.nodes.tree ≡ node 0 Root (below_in (block lines.now) (kept memo.now)) none) }
    ensures ops { IfOk result (λ f. map op_of f.ops.items ≡ inserts 0 (below_in (block lines.now) (kept memo.now))) }
    ensures next { IfOk result (λ f. f.nodes.next ≡ 1 + length (keys (shown_in (block lines.now) (kept memo.now)))) }
    ensures lines { (p : NumberedPage) → IsPage p → page_shape p ≡ lines_shape (block lines.now) (kept memo.now) → IfOk result (λ f.
        f.nodes.tree ≡ tree_of p → AreLined p (line_at f.nodes.numbers)) }
    ensures numbers { (p : NumberedPage) → IsPage p → page_shape p ≡ lines_shape (block lines.now) (kept memo.now) → IfOk result (λ f.
        f.nodes.tree ≡ tree_of p → AreKnown p f.nodes.tree (number_at f.nodes.numbers)) }
{
    let mut shown = Vec::new(alloc);
    put_shown(alloc, None, lines, memo, &mut shown)?;
    let mut out = Nodes::new(alloc);
    put_nodes(alloc, &shown, &mut out)?;
    let Nodes { subs, next } = out;
    let ops = insertions(alloc, subs)?;
    let tree = tree_by(alloc, &ops)?;
    let numbers = read_numbers(alloc, shown, &tree)?;
    let nodes = PageNodes {
        tree,
        numbers,
        next,
    };
    Ok(First { nodes, ops })
}
