// What holds of every line and every script.
ghost use Rattle.std.specs.Prelude.{◌≡◌, ◌∷◌, ◌+◌, ◌++◌, ℕ, List, length, drop};
ghost use Rattle.std.specs.List.{AllByRecursion};
ghost use Rattle.script_lines.specs.Lines.{EndsLine, kept_lines, lines};
ghost use Rattle.script_lines.specs.Pieces.{Piece, outside, pieces_of, place_after};
ghost use Rattle.live_cmd.specs.declared.command.Item.{Item};
ghost use Rattle.live_cmd.specs.declared.command.Item.TheVariants as item;
ghost use Rattle.live_cmd.specs.Grammar.{Said, Writes};
ghost use Rattle.script_items.specs.Items.{Begins, IsItem, IsSingle, ItemsFrom};

/// The bytes of a line say one thing.
pub fn one_meaning()
    ensures { (bytes : List ℕ) (x y : Said) → Writes x bytes → Writes y bytes → x ≡ y }
{}

/// A command by itself is all of its piece of a script: no line stands behind it there.
pub fn commands_alone()
    ensures { (n : ℕ) (script : List ℕ) → AllByRecursion IsSingle (pieces_of n script) }
{}

/// A piece of a script is exactly one item.
pub fn one_item()
    ensures some { (piece : Piece) → (i : Item) × IsItem piece i }
    ensures one { (piece : Piece) (i j : Item) → IsItem piece i → IsItem piece j → i ≡ j }
{}

/// A script has exactly one list of items.
pub fn one_list()
    ensures some { (n : ℕ) (script : List ℕ) → (is : List Item) × ItemsFrom n script is }
    ensures one { (n : ℕ) (script : List ℕ) (is js : List Item) → ItemsFrom n script is → ItemsFrom n script js → is ≡ js }
{}

/// A script may be cut after a line, outside a block: its items are those of the two parts in turn.
pub fn items_cut()
    ensures { (n : ℕ) (x y : List ℕ) (is js : List Item) → EndsLine x → place_after outside (kept_lines n x) ≡ outside
        → ItemsFrom n x is → ItemsFrom (n + length (lines x)) y js → ItemsFrom n (x ++ y) (is ++ js) }
{}

/// The items of a script from a byte on are the one that begins there and those that follow it.
pub fn items_in_turn()
    ensures { (script : List ℕ) (at line next after : ℕ) (i : Item) (is : List Item) → Begins script at line i next after
        → ItemsFrom after (drop next script) is → ItemsFrom line (drop at script) (i ∷ is) }
{}
