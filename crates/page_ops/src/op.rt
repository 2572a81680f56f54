// Operations, and why they are refused.
ghost use Rattle.std.specs.Prelude.{◌≡◌};
ghost use Rattle.page_ops.specs.declared.op.ApplyFault.TheVariants as fault;
ghost use Rattle.page_ops.specs.declared.op.OpFault.TheVariants as unread;

use page_tree::Sub;
use sig_base::{NoMemory, Text};
use thiserror::Error;

/// An operation on a numbered tree.
pub enum Op {
    /// The node of a number, with all below it, is taken out.
    Remove(u64),
    /// A subtree is put under a parent, at a place among its children.
    Insert(u64, u64, Sub),
    /// A node is put at a place among the other children of its parent.
    Move(u64, u64),
    /// A text gets another one.
    Text(u64, Text),
    /// An attribute of a name is put at a place among the other attributes, with a value.
    Attr(u64, u64, Text, Text),
    /// The attribute of a name is taken out.
    Unattr(u64, Text),
}

impl Drop for Op {
    fn drop(self) {
        match self {
            Op::Remove(_) => {}
            Op::Insert(_, _, _) => {}
            Op::Move(_, _) => {}
            Op::Text(_, _) => {}
            Op::Attr(_, _, _, _) => {}
            Op::Unattr(_, _) => {}
        }
    }
}

/// Why an operation is refused, in the order in which the causes are looked for.
#[derive(Clone, Copy, Debug, PartialEq, Eq, Error)]
pub enum ApplyFault {
    /// There is no such node, or it isn't of the kind that the operation needs.
    #[error("there is no node {0} for this operation")]
    NoSuchNode(u64),
    /// The place is past the end.
    #[error("place {0} is past the end")]
    NoSuchPlace(u64),
    /// A number that comes in is on the page, or comes twice.
    #[error("number {0} is used already")]
    NumberUsed(u64),
    /// A node that comes in would stand more than 32 steps below the root.
    #[error("node {0} would stand too deep")]
    TooDeep(u64),
    #[error("out of memory")]
    NoMemory,
}

impl From<NoMemory> for ApplyFault {
    ghost from_gives = { λ _ e. e ≡ fault.NoMemory };

    fn from(_: NoMemory) -> Self {
        ApplyFault::NoMemory
    }
}

/// Why bytes are no operation.
#[derive(Clone, Copy, Debug, PartialEq, Eq, Error)]
pub enum OpFault {
    /// They are no operation's text; those before this place are as in some operation's text.
    #[error("no operation at byte {0}")]
    Bad(usize),
    #[error(transparent)]
    NoMemory(NoMemory),
}

impl From<NoMemory> for OpFault {
    ghost from_gives = { λ e f. f ≡ unread.NoMemory e };

    fn from(e: NoMemory) -> Self {
        OpFault::NoMemory(e)
    }
}
