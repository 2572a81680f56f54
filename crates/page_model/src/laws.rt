// The laws of pages, each the contract of a call that does nothing.
ghost use Rattle.std.specs.Prelude.{ℕ, List, Option, [], length, ◌≡◌, ◌+◌, ◌<◌, ◌≤◌, true, false};
ghost use Rattle.page_model.specs.Forest.{Forest, keys, on};
ghost use Rattle.page_model.specs.Labels.{Kind, Look, shown};
ghost use Rattle.page_model.specs.Addresses.{address};
ghost use Rattle.page_model.specs.Edits.{edits};
ghost use Rattle.page_model.specs.Html.{html_of};
ghost use Rattle.page_model.specs.Pages.{IsPage, IsShape, NumberedPage, SameOrigin, bare, edits_between, new_order, number_of};
ghost use Rattle.page_model.specs.Pages.{page_shape, place_in, renumbered, tree_of};
ghost use Rattle.page_model.specs.Replay.{Done, Op, do_op, replay};
ghost use Rattle.page_model.specs.Texts.{AreWritable};
ghost use Rattle.page_model.specs.Trees.{Brings, IsTree};

/// The replay law: the edits between a page and the page that is carried to a new shape, replayed on the tree before,
/// give the tree after, and no operation is refused. It asks that an address that both have stands below the same
/// address and comes from the same line of the template.
pub fn replay_law()
    ensures { (old : NumberedPage) (shape : Forest Look) → IsPage old → IsShape shape → SameOrigin (page_shape old) shape →
        replay (edits_between old (renumbered old shape)) (tree_of old) ≡ Done (tree_of (renumbered old shape)) }
{}

/// A page that is carried to a shape is a page: its numbers are distinct and below its next unused one.
pub fn page_law()
    ensures { (old : NumberedPage) (shape : Forest Look) → IsPage old → IsShape shape → IsPage (renumbered old shape) }
{}

/// It has that shape.
pub fn shape_law()
    ensures { (old : NumberedPage) (shape : Forest Look) → page_shape (renumbered old shape) ≡ shape }
{}

/// An address that stood on the page before keeps its number.
pub fn kept_number_law()
    ensures { (old : NumberedPage) (shape : Forest Look) (a : ℕ) → on a (page_shape old) ≡ true → on a shape ≡ true →
        number_of (renumbered old shape) a ≡ number_of old a }
{}

/// A new one gets a number that wasn't used before, by its place in the order of the insertions.
pub fn unused_number_law()
    ensures { (old : NumberedPage) (shape : Forest Look) (a : ℕ) → on a (page_shape old) ≡ false → on a shape ≡ true →
        number_of (renumbered old shape) a ≡ old.next + place_in a (new_order old shape) }
{}

/// The numbers have no gaps: each from the old page's next one up to the new page's is that of a new node.
pub fn no_gaps_law()
    ensures { (old : NumberedPage) (shape : Forest Look) → IsPage old → IsShape shape → SameOrigin (page_shape old) shape →
        (n : ℕ) → old.next ≤ n → n < (renumbered old shape).next →
        (a : ℕ) × (on a shape ≡ true) × (on a (page_shape old) ≡ false) × (number_of (renumbered old shape) a ≡ n) }
{}

/// A shape takes at most as many new numbers as it has nodes.
pub fn few_numbers_law()
    ensures { (old : NumberedPage) (shape : Forest Look) → IsPage old → IsShape shape → SameOrigin (page_shape old) shape →
        (renumbered old shape).next ≤ old.next + length (keys shape) }
{}

/// The page before the first shape is a page, its tree is a tree, and it shows nothing.
pub fn bare_law()
    ensures page { IsPage bare }
    ensures tree { IsTree (tree_of bare) }
    ensures html { html_of (tree_of bare) ≡ [] }
{}

/// The tree of a page that has a shape is one that operations are done on.
pub fn page_tree_law()
    ensures { (old : NumberedPage) (shape : Forest Look) → IsPage old → IsShape shape → IsTree (tree_of (renumbered old shape)) }
{}

/// An operation makes a tree of a tree, where what it brings are nodes.
pub fn tree_law()
    ensures { (op : Op) (before now : Forest Kind) → IsTree before → Brings op → do_op op before ≡ Done now → IsTree now }
{}

/// The edits to a page can be written.
pub fn writable_law()
    ensures { (old : NumberedPage) (shape : Forest Look) → IsPage old → IsShape shape → AreWritable (edits_between old (renumbered old shape)) }
{}

/// The bytes of a renumbered page are those of its shape.
pub fn html_law()
    ensures { (old : NumberedPage) (shape : Forest Look) → html_of (tree_of (renumbered old shape)) ≡ html_of (shown shape) }
{}

/// There are no edits where nothing differs.
pub fn quiet_law()
    ensures { (t : Forest Look) → edits t t ≡ [] }
{}

/// An address stands for one line and one row, and the root's is none of them.
pub fn address_law()
    ensures one { (l m : ℕ) (r s : Option (List ℕ)) → address l r ≡ address m s → (l ≡ m) × (r ≡ s) }
    ensures above { (l : ℕ) (r : Option (List ℕ)) → 0 < address l r }
{}
