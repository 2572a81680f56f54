// Operations done on a tree.
ghost use Rattle.std.specs.Prelude.{◌≡◌, MatchResult};
ghost use Rattle.page_model.specs.Replay as replay;
ghost use Rattle.page_model.specs.Trees.{Brings};
ghost use Rattle.page_tree.specs.Queries.{IsDone};
ghost use Rattle.page_ops.specs.Ops.{Causes, op_of};

use crate::judge::judge;
use crate::op::{ApplyFault, Op};
use page_tree::Tree;
use sig_base::NoMemory;
use std::alloc::Global;

/// Does an operation that isn't refused, and looks for no cause why it might be. After want of memory the tree is as before. It asks that the
/// attribute names of each element that comes are distinct.
pub fn perform(alloc: Global, tree: &mut Tree, op: &Op) -> Result<(), NoMemory>
    requires nodes { Brings (op_of op.now) }
    requires fits { IsDone (replay.do_op (op_of op.now) tree.old) }
    ensures { MatchResult result (λ u. replay.do_op (op_of op.now) tree.old ≡ replay.Done tree.new) (λ e. tree.new ≡ tree.old) }
{
    match op {
        Op::Remove(id) => {
            tree.remove(*id);
            Ok(())
        }
        Op::Insert(parent, place, sub) => {
            tree.insert(alloc, *parent, *place as usize, sub)?;
            Ok(())
        }
        Op::Move(id, place) => {
            tree.move_to(*id, *place as usize);
            Ok(())
        }
        Op::Text(id, text) => {
            let text = text.copy()?;
            tree.set_text(*id, text);
            Ok(())
        }
        Op::Attr(id, place, name, value) => {
            tree.set_attr(*id, *place as usize, name, value)?;
            Ok(())
        }
        Op::Unattr(id, name) => {
            tree.unset_attr(*id, name);
            Ok(())
        }
    }
}

/// Does an operation on a tree: what replay makes of it. A refusal says the first cause, and leaves the tree as before, as
/// does want of memory. It asks that the attribute names of each element that comes are distinct.
pub fn apply(alloc: Global, tree: &mut Tree, op: &Op) -> Result<(), ApplyFault>
    requires { Brings (op_of op.now) }
    ensures { MatchResult result
        (λ u. replay.do_op (op_of op.now) tree.old ≡ replay.Done tree.new)
        (λ e. (tree.new ≡ tree.old) × Causes e (replay.do_op (op_of op.now) tree.old)) }
{
    if let Some(why) = judge(alloc, tree, op)? {
        return Err(why);
    }
    perform(alloc, tree, op)?;
    Ok(())
}
