// Whether a source that was read has moved since, by what stands under its id now.
ghost use Rattle.std.specs.Prelude.{◌≡◌, List, Some, slice_get};
ghost use Rattle.sig_nodes.specs.declared.node.Body.TheVariants as body;
ghost use Rattle.sig_nodes.specs.declared.node.Node.{Node};
ghost use Rattle.sig_nodes.specs.Nodes.{body_at, has_moved_body};

use crate::bodies::{node_moved, same_number};
use crate::node::{Node, Source};

impl Source {
    /// Whether it has another number than the one that was read, or is computing, by its node.
    #[inline(always)]
    pub fn has_moved(&self, node: &Node) -> bool
        ensures { (xs : List Node) → slice_get xs self.now.name ≡ Some node.now → result ≡ has_moved_body xs (Some self.now) }
    {
        node_moved(node, self.number)
    }

    /// The same, where it is gone.
    pub fn has_gone(&self) -> bool
        ensures { (xs : List Node) → body_at xs self.now.name ≡ body.Gone → result ≡ has_moved_body xs (Some self.now) }
    {
        !same_number(None, self.number)
    }
}
