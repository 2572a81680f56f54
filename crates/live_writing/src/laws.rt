// What is written is read back.
ghost use Rattle.std.specs.Prelude.{◌≡◌, ◌+◌, ◌++◌, ℕ, List, false, length, drop};
ghost use Rattle.script_lines.specs.Pieces.{Piece};
ghost use Rattle.live_cmd.specs.declared.command.Command.{Command};
ghost use Rattle.live_cmd.specs.declared.command.Item.TheVariants as item;
ghost use Rattle.script_items.specs.Items.{any_long, Begins, IsItem};
ghost use Rattle.live_writing.specs.Printer.{command_text, lines_by, lines_of_command};

/// What `command_line` writes of a command that a script has is read back as the same command, wherever it stands, if none of its
/// lines has more than `MOST_LINE` bytes.
pub fn commands_read_back()
    ensures { (p : Piece) (c : Command) → IsItem p (item.Do c) → (script : List ℕ) (at line : ℕ) (rest : List ℕ)
        → drop at script ≡ command_text c ++ rest → any_long (lines_of_command line c) ≡ false
        → Begins script at line (item.Do c) (at + length (command_text c)) (line + length (lines_by c)) }
{}
