// What holds of every line and of every body.
ghost use Rattle.std.specs.Prelude.{◌≡◌, ℕ, List, Ok};
ghost use Rattle.script_lines.specs.Lines.{NumberedLine, kept_lines};
ghost use Rattle.sig_untrack.specs.Stated.{Bodies};
ghost use Rattle.body_text.specs.declared.allowance.Allowance.{Allowance};
ghost use Rattle.body_text.specs.Grammar.{Said, Writes};
ghost use Rattle.body_text.specs.Verdicts.{Answer, IsRead};
ghost use Rattle.body_text.specs.Statements.{lines_of, Statements};
ghost use Rattle.body_text.specs.Printer.{body_text, lines_of_text, meaning};

/// The bytes of a line say one thing.
pub fn one_line()
    ensures { (bytes : List ℕ) (x y : Said) → Writes x bytes → Writes y bytes → x ≡ y }
{}

/// Lines spell one list of statements. Whatever is allowed, they are exactly one body, or refused for exactly one cause.
pub fn one_body()
    ensures spelled { (s t : Statements) → lines_of s ≡ lines_of t → s ≡ t }
    ensures some { (allowance : Allowance) (ls : List NumberedLine) → (a : Answer) × IsRead allowance ls a }
    ensures one { (allowance : Allowance) (ls : List NumberedLine) (a b : Answer) → IsRead allowance ls a → IsRead allowance ls b → a ≡ b }
{}

/// What `put_body` writes of a body that lines are is read back as the same body where the same is allowed. Its lines are those that were
/// written.
pub fn bodies_read_back()
    ensures read { (allowance : Allowance) (ls : List NumberedLine) (b : Bodies) → IsRead allowance ls (Ok b) → IsRead allowance (kept_lines 0 (body_text b)) (Ok b) }
    ensures lines { (allowance : Allowance) (ls : List NumberedLine) (b : Bodies) → IsRead allowance ls (Ok b) → kept_lines 0 (body_text b) ≡ lines_of_text (meaning b) }
{}
