// Reads one line of a template.
ghost use Rattle.std.specs.Prelude.{◌≡◌, ◌≤◌, ◌∷◌, [], ℕ, List, None, Some, false, IfOk, MatchOption, option_map, length};
ghost use Rattle.std.specs.Result.{result_ok};
ghost use Rattle.std.specs.Str.{chars};
ghost use Rattle.sig_words.specs.Literals.{between_quotes, plain};
ghost use Rattle.sig_words.specs.Tokens.{AreTokens};
ghost use Rattle.sig_words.specs.Lexemes.{lexemes};
ghost use Rattle.formula_text.specs.Grammar.{Draft};
ghost use Rattle.formula_text.specs.Rough.{draft, HasLeaves};
ghost use Rattle.formula_text.specs.declared.wired.Allow.{Allow};
ghost use Rattle.line_forms.specs.Forms as forms;
ghost use Rattle.line_forms.specs.Reader.{read_form, read_formula};
ghost use Rattle.line_forms.specs.Reads.{IfRead};
ghost use Rattle.line_forms.specs.Rows.{rows_of, said_of};
ghost use Rattle.line_forms.specs.Told.{ahead};
ghost use Rattle.tpl_syntax.specs.declared.line.Line.TheVariants as lines;
ghost use Rattle.tpl_syntax.specs.Grammar as rows;
ghost use Rattle.tpl_syntax.specs.Grammar.{table, templates, Said, Writes};
ghost use Rattle.tpl_syntax.specs.Refusals.{has_end, is_bare};
ghost use Rattle.tpl_syntax.specs.Views.{finds, found_as, found_first, found_of, seen};

use crate::{Line, Mark, Purpose};
use formula_text::{Allow, Rough};
use line_forms::{
    NotThere, ToldFormula, Unread, ends_at, first_word, optional, rough_at, tag_at, told,
};
use sig_base::{MOST_LINE, NoMemory};
use sig_words::{LineFault, Token, token_bytes, tokens};
use std::alloc::Global;
use std::str;

/// A formula that was read: with slots for its names or what is wrong with it, and whether it is a literal that may stand in a text
/// that isn't escaped.
#[derive(Drop)]
pub struct Seen {
    pub told: ToldFormula,
    pub bare: bool,
}

/// What was found in a literal so far: whether a backslash stands just before, whether `<` does, and whether `</` stood somewhere.
#[derive(Clone, Copy)]
pub struct Scan {
    behind: bool,
    opened: bool,
    found: bool,
}

// What is found with one more character. None that a backslash makes is `<` or `/`, or is made of them.
fn past(scan: Scan, c: char) -> Scan
    ensures { (rest : List ℕ) → finds result rest ≡ finds scan (c ∷ rest) }
{
    if !scan.behind && c == '\\' {
        return Scan {
            behind: true,
            opened: scan.opened,
            found: scan.found,
        };
    }
    Scan {
        behind: false,
        opened: c == '<',
        found: scan.found || (scan.opened && c == '/'),
    }
}

// Whether the text for which a literal stands has `</` in it.
#[tactic(auto, using(std::proofs::lemmas::Str::chars_from_encodes))]
fn has_end(inner: &str) -> bool
    ensures { result ≡ has_end false (plain false (chars inner.now)) }
{
    let mut scan = Scan {
        behind: false,
        opened: false,
        found: false,
    };
    for c in inner.chars() {
        scan = past(scan, c);
    }
    scan.found
}

// The bytes between the quotes of a literal.
#[tactic(auto, unfolding(sig_words::specs::Literals::between_quotes))]
fn between_quotes(text: &[u8]) -> &[u8]
    ensures { result.now ≡ between_quotes text.now }
{
    match text {
        [_, inner @ .., _] => inner,
        _ => &[],
    }
}

// Whether a formula is one literal without `</`.
fn is_bare(line: &[u8], tokens: &[Token], rough: &Rough) -> bool
    requires of_line { AreTokens line.now tokens.now }
    requires leaves { HasLeaves line.now tokens.now rough.now }
    ensures { result ≡ is_bare (draft line.now tokens.now rough.now) }
{
    match rough {
        Rough::Text(place) => {
            let text = between_quotes(token_bytes(line, &tokens[*place]));
            let Ok(text) = str::from_utf8(text) else {
                unreachable!()
            };
            !has_end(text)
        }
        _ => false,
    }
}

// A formula at a place, and the place after it.
fn seen_at(
    alloc: Global,
    line: &[u8],
    tokens: &[Token],
    at: usize,
    allow: Allow,
) -> Result<(Seen, usize), Unread>
    requires { AreTokens line.now tokens.now }
    ensures { IfRead result (λ found. MatchOption found (read_formula (ahead line.now tokens.now at) ≡ None)
        (λ p. (f : Draft) × (read_formula (ahead line.now tokens.now at) ≡ Some (f, ahead line.now tokens.now p.1)) × (p.0 ≡ seen allow f))) }
{
    let (rough, to) = rough_at(alloc, line, tokens, at)?;
    let bare = is_bare(line, tokens, &rough);
    let told = told(alloc, line, tokens, &rough, allow)?;
    Ok((Seen { told, bare }, to))
}

// A formula at a place, and nothing behind it.
fn seen_last(
    alloc: Global,
    line: &[u8],
    tokens: &[Token],
    at: usize,
    allow: Allow,
) -> Result<Seen, Unread>
    requires { AreTokens line.now tokens.now }
    ensures { IfRead result (λ found.
        found ≡ option_map (λ a. seen allow a.0) (read_form (forms.part forms.formula ∷ []) (ahead line.now tokens.now at))) }
{
    let (seen, at) = seen_at(alloc, line, tokens, at, allow)?;
    ends_at(tokens, at)?;
    Ok(seen)
}

// A word and a formula.
fn over(
    alloc: Global,
    line: &[u8],
    tokens: &[Token],
    allow: Allow,
    purpose: Purpose,
) -> Result<Line<Seen>, Unread>
    requires { AreTokens line.now tokens.now }
    ensures { IfRead result (λ found. found
        ≡ option_map (λ a. lines.Over purpose (seen allow a.0)) (read_form (forms.part forms.formula ∷ []) (ahead line.now tokens.now 1))) }
{
    let seen = seen_last(alloc, line, tokens, 1, allow)?;
    Ok(Line::Over(purpose, seen))
}

// A word alone.
fn alone(tokens: &[Token], mark: Mark) -> Result<Line<Seen>, NotThere>
    ensures { (line : List ℕ) → result_ok result ≡ option_map (λ a. lines.Plain mark) (read_form [] (ahead line tokens.now 1)) }
{
    ends_at(tokens, 1)?;
    Ok(Line::Plain(mark))
}

// `tag @NAME`
fn tag(alloc: Global, line: &[u8], tokens: &[Token], allow: Allow) -> Result<Line<Seen>, Unread>
    requires { AreTokens line.now tokens.now }
    ensures { IfRead result (λ found. found ≡ found_as allow rows.tag (ahead line.now tokens.now 1)) }
{
    let (name, at) = tag_at(alloc, line, tokens, 1)?;
    ends_at(tokens, at)?;
    Ok(Line::Plain(Mark::Tag(name)))
}

// `attr @NAME FORMULA`
fn attribute(
    alloc: Global,
    line: &[u8],
    tokens: &[Token],
    allow: Allow,
) -> Result<Line<Seen>, Unread>
    requires { AreTokens line.now tokens.now }
    ensures { IfRead result (λ found. found ≡ found_as allow rows.attr (ahead line.now tokens.now 1)) }
{
    let (name, at) = tag_at(alloc, line, tokens, 1)?;
    let seen = seen_last(alloc, line, tokens, at, allow)?;
    Ok(Line::Over(Purpose::Attr(name), seen))
}

// What the tokens behind a first word say.
fn behind_word(
    alloc: Global,
    line: &[u8],
    tokens: &[Token],
    word: &str,
    allow: Allow,
) -> Result<Line<Seen>, Unread>
    requires { AreTokens line.now tokens.now }
    ensures { IfRead result (λ found. found ≡ found_first allow (rows_of word.now table) (ahead line.now tokens.now 1)) }
{
    match word {
        "text" => over(alloc, line, tokens, allow, Purpose::Text),
        "tag" => tag(alloc, line, tokens, allow),
        "attr" => attribute(alloc, line, tokens, allow),
        "if" => over(alloc, line, tokens, allow, Purpose::If),
        "else" => Ok(alone(tokens, Mark::Else)?),
        "try" => Ok(alone(tokens, Mark::Try)?),
        "each" => over(alloc, line, tokens, allow, Purpose::Each),
        "end" => Ok(alone(tokens, Mark::End)?),
        _ => Err(Unread::NotThere),
    }
}

// What the tokens of a line say, behind a pointer.
fn spelled(
    alloc: Global,
    line: &[u8],
    tokens: &[Token],
    allow: Allow,
) -> Result<Box<Line<Seen>>, Unread>
    requires { AreTokens line.now tokens.now }
    ensures { IfRead result (λ held. option_map (λ l. l.value) held ≡ option_map (found_of allow) (said_of templates (lexemes line.now tokens.now))) }
{
    let word = first_word(line, tokens)?;
    let found = behind_word(alloc, line, tokens, word, allow)?;
    let held = Box::new(alloc, found)?;
    Ok(held)
}

/// What a line of at most `MOST_LINE` bytes says, where this is allowed to its formula; `None` exactly where its bytes write nothing.
pub fn read_line(
    alloc: Global,
    line: &[u8],
    allow: Allow,
) -> Result<Option<Box<Line<Seen>>>, NoMemory>
    requires { length line.now ≤ MOST_LINE }
    ensures { IfOk result (λ found. MatchOption found ((x : Said) → Writes x line.now → ⊥)
        (λ l. (x : Said) × Writes x line.now × (l.value ≡ found_of allow x))) }
{
    match tokens(alloc, line) {
        Ok(found) => optional(spelled(alloc, line, &found, allow)),
        Err(LineFault::Bad(_)) => Ok(None),
        Err(LineFault::TooLong) => unreachable!(),
        Err(LineFault::NoMemory(e)) => Err(e),
    }
}
