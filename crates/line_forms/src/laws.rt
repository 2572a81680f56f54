// What is said of forms in general.
ghost use Rattle.std.specs.Prelude.{◌≡◌, ◌↔◌, List, Some, true};
ghost use Rattle.sig_words.specs.Lexemes.{Lexeme};
ghost use Rattle.line_forms.specs.Forms.{Args, Form, SpellsForm};
ghost use Rattle.line_forms.specs.Reader.{is_clear, read_form};

/// Where each part of a form ends where it can't go on, tokens are read as a line of this form exactly where they spell it.
pub fn forms_read()
    ensures { (ps : Form) (a : Args ps) (ls : List Lexeme) → is_clear ps ≡ true → SpellsForm ps a ls ↔ (read_form ps ls ≡ Some a) }
{}
