// Laws of ways and lines, each the contract of a call that does nothing.
ghost use Rattle.std.specs.Prelude.{ℕ, List, Option, [], ◌∷◌, ◌≡◌, true, if◌then◌else◌};
ghost use Rattle.page_model.specs.Addresses.{address};
ghost use Rattle.page_model.specs.Forest.{Forest, on, parent};
ghost use Rattle.page_model.specs.Labels.{Kind};
ghost use Rattle.page_model.specs.Pages.{IsPage, NumberedPage, number_of, page_shape};
ghost use Rattle.page_model.specs.Replay.{below_root};
ghost use Rattle.page_model.specs.Trees.{IsTree};
ghost use Rattle.event_model.specs.Ways.{line_in, line_on, way};

/// The line of an address is that of which it was made, whatever its row.
pub fn line_law()
    ensures { (line : ℕ) (row : Option (List ℕ)) → line_in (address line row) ≡ line }
{}

/// A node of a page has the line of its address.
pub fn node_law()
    ensures { (p : NumberedPage) (a : ℕ) → IsPage p → on a (page_shape p) ≡ true → line_on p (number_of p a) ≡ line_in a }
{}

/// The way from a node is the node and then the way from its parent, up to a child of the root: no way on a tree is cut off.
pub fn way_law()
    ensures { (n : ℕ) (now : Forest Kind) → IsTree now → way n now ≡ (if below_root n now then n ∷ way (parent n now) now else []) }
{}
