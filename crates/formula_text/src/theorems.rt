// What holds of the texts of formulas.
ghost use Rattle.std.specs.Prelude.{◌≡◌, ◌≤◌, ◌+◌, ◌++◌, ℕ, ℤ, Bool, List, true, false, length, slice_index, take, drop};
ghost use Rattle.std.specs.Int.{w64};
ghost use Rattle.std.specs.Int.RustNames.{FitsSigned};
ghost use Rattle.std.specs.Str.{IsUtf8};
ghost use Rattle.sig_base.specs.declared.scalar.Scalar.TheVariants as scalar;
ghost use Rattle.sig_base.specs.Words.{in_word, is_name};
ghost use Rattle.sig_words.specs.Lexemes.{Lexeme, lexemes};
ghost use Rattle.sig_words.specs.Tokens.{AreTokens, may_sign};
ghost use Rattle.sig_words.specs.declared.token.Token.{Token};
ghost use Rattle.formula_text.specs.declared.wired.Allow.{Allow};
ghost use Rattle.formula_text.specs.Canonical.{canonical_text, minimal, unslotted};
ghost use Rattle.formula_text.specs.Grammar.{Draft, IsFormula, IsLongest, Spells, spelled};
ghost use Rattle.formula_text.specs.Refusals.{names, slotted};
ghost use Rattle.formula_text.specs.Lexer.{CutsInto, IsOneToken};
ghost use Rattle.formula_text.specs.RoundTrips.{text_of_wiring, IsPrintable, ReadsAmong, ReadsWhole, StandsAmong};
ghost use Rattle.formula_text.specs.Signs.{NoOperator, constant, name, signs};
ghost use Rattle.formula_text.specs.Slots.{IsWired, Wiring};

/// A text spells one formula.
pub fn one_formula()
    ensures { (ls : List Lexeme) (x y : Draft) → IsFormula ls x → IsFormula ls y → x ≡ y }
{}

/// The names of a formula in place of its slots make the formula, so the text that is written of a wired formula is the one
/// with the fewest parentheses of the formula that was read.
pub fn names_for_slots()
    ensures { (x : Draft) → unslotted (names x) (slotted (names x) x) ≡ x }
{}

/// A formula with the fewest parentheses spells itself, and is read whole where no operator stands behind it.
pub fn fewest_parentheses()
    ensures spells { (x : Draft) → Spells (spelled (minimal 0 x)) x }
    ensures reads { (x : Draft) (ls : List Lexeme) (n : ℕ) → n ≤ length ls → signs (take n ls) ≡ spelled (minimal 0 x)
        → NoOperator (signs (drop n ls)) → IsLongest ls n x }
{}

/// The tokens of the canonical text of a formula spell the formula, where its names are names, its numbers have 64 bits and its
/// texts are UTF-8; so they do in a longer line, where a `-` may be a sign before them and nothing that lengthens a word stands
/// behind them.
pub fn canonical_text_reads()
    ensures alone { (x : Draft) (ts : List Token) → IsPrintable x → AreTokens (canonical_text x) ts
        → IsFormula (lexemes (canonical_text x) ts) x }
    ensures in_line { (x : Draft) (line : List ℕ) (from : ℕ) (back : List ℕ) → IsPrintable x
        → drop from line ≡ canonical_text x ++ back → may_sign line from ≡ true → in_word (slice_index back 0) ≡ false
        → CutsInto line from (from + length (canonical_text x)) (spelled (minimal 0 x)) }
{}

/// What `put_formula` writes of a formula that was read is read back as the same formula: alone to its end, and in a longer line
/// where a `-` may be a sign before it, nothing that lengthens a word stands behind it and no operator comes next.
pub fn written_formulas_read_back()
    ensures alone { (line : List ℕ) (ts : List Token) (from to : ℕ) (allow : Allow) (w : Wiring) → AreTokens line ts
        → IsWired line ts from to allow w → ReadsWhole (text_of_wiring w) allow w }
    ensures in_line { (line : List ℕ) (ts : List Token) (from to : ℕ) (allow : Allow) (w : Wiring) → AreTokens line ts
        → IsWired line ts from to allow w → (other : List ℕ) (at : ℕ) (front others : List Token)
        → StandsAmong other (text_of_wiring w) at front others → ReadsAmong other front others allow w }
{}

/// A name, `true`, `false`, a number and a text are written as one token, which says them.
pub fn leaves_are_tokens()
    ensures names { (n : List ℕ) → is_name n ≡ true → IsOneToken (name n) }
    ensures truths { (b : Bool) → IsOneToken (constant (scalar.Bool b)) }
    ensures numbers { (z : ℤ) → FitsSigned w64 z → IsOneToken (constant (scalar.Int z)) }
    ensures texts { (t : List ℕ) → IsUtf8 t → IsOneToken (constant (scalar.Text t)) }
{}
