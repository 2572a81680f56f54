// What holds of every line and of every template.
ghost use Rattle.std.specs.Prelude.{◌≡◌, ℕ, List, Ok};
ghost use Rattle.script_lines.specs.Lines.{NumberedLine, kept_lines};
ghost use Rattle.tpl_syntax.specs.Grammar.{Said, Writes};
ghost use Rattle.tpl_syntax.specs.Lines.{Plan};
ghost use Rattle.tpl_syntax.specs.Templates.{Answer, IsRead};
ghost use Rattle.tpl_syntax.specs.Printer.{lines_of_plan, plan_text};

/// The bytes of a line say one thing.
pub fn one_line()
    ensures { (bytes : List ℕ) (x y : Said) → Writes x bytes → Writes y bytes → x ≡ y }
{}

/// Lines are exactly one template, or refused for exactly one cause.
pub fn one_template()
    ensures some { (ls : List NumberedLine) → (a : Answer) × IsRead ls a }
    ensures one { (ls : List NumberedLine) (a b : Answer) → IsRead ls a → IsRead ls b → a ≡ b }
{}

/// What `put_template` writes of a template that lines are is read back as the same template. Its lines are those that were written.
pub fn templates_read_back()
    ensures read { (ls : List NumberedLine) (t : Plan) → IsRead ls (Ok t) → IsRead (kept_lines 0 (plan_text t)) (Ok t) }
    ensures lines { (ls : List NumberedLine) (t : Plan) → IsRead ls (Ok t) → kept_lines 0 (plan_text t) ≡ lines_of_plan t }
{}
