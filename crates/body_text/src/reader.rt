// Reads one line of a body.
ghost use Rattle.std.specs.Prelude.{◌≡◌, ◌≤◌, ◌∷◌, [], ℕ, List, None, Some, IfOk, MatchOption, option_map, length};
ghost use Rattle.std.specs.Result.{result_ok};
ghost use Rattle.sig_words.specs.Tokens.{AreTokens};
ghost use Rattle.sig_words.specs.Lexemes.{lexemes};
ghost use Rattle.formula_text.specs.declared.wired.Allow.{Allow};
ghost use Rattle.formula_text.specs.Grammar.{Draft};
ghost use Rattle.formula_text.specs.Slots.{refusal};
ghost use Rattle.line_forms.specs.Forms as forms;
ghost use Rattle.line_forms.specs.Reader.{read_form, read_part};
ghost use Rattle.line_forms.specs.Reads.{IfRead};
ghost use Rattle.line_forms.specs.Rows.{rows_of, said_of};
ghost use Rattle.line_forms.specs.Told.{ahead, IsToldFormula};
ghost use Rattle.body_text.specs.Grammar as rows;
ghost use Rattle.body_text.specs.Grammar.{bodies, last_words, table, Said, Writes};
ghost use Rattle.body_text.specs.Views.{found_as, found_first, found_of, IsTold};

use crate::StatementSet;
use crate::line::{Found, Line, LineKind, Source, faulty, sound, statement};
use crate::named::NamedFormula;
use effect_model::Plain;
use formula_text::{Allow, FormulaFault};
use line_forms::{
    NotThere, ToldFormula, Unread, arguments_at, count_at, ends_at, first_word, formula_at,
    name_at, optional, symbol_at, word_at,
};
use sig_base::{MOST_LINE, Name, NoMemory};
use sig_words::{LineFault, Token, tokens};
use std::alloc::Global;

/// A formula, or what is wrong with it.
type ToldNamed = Result<NamedFormula, FormulaFault>;

// A formula with its names, or what is wrong with it.
#[tactic(auto, using(crate::proofs::Formulas::is_own, crate::proofs::Formulas::names_again))]
fn named(alloc: Global, told: ToldFormula, allow: Allow) -> Result<ToldNamed, NoMemory>
    requires { (x : Draft) × IsToldFormula allow x told }
    ensures { (x : Draft) → IsToldFormula allow x told → IfOk result (IsTold (refusal allow x) x) }
{
    match told {
        Ok(wired) => {
            let formula = NamedFormula::of(alloc, wired)?;
            Ok(Ok(formula))
        }
        Err(fault) => Ok(Err(fault)),
    }
}

// A formula at a place, or what is wrong with it, and the place after it.
fn named_at(
    alloc: Global,
    line: &[u8],
    tokens: &[Token],
    at: usize,
    allow: Allow,
) -> Result<(ToldNamed, usize), Unread>
    requires { AreTokens line.now tokens.now }
    ensures { IfRead result (λ found. MatchOption found (read_part forms.formula (ahead line.now tokens.now at) ≡ None)
        (λ p. (x : Draft) × (read_part forms.formula (ahead line.now tokens.now at) ≡ Some (x, ahead line.now tokens.now p.1))
        × IsTold (refusal allow x) x p.0)) }
{
    let (told, to) = formula_at(alloc, line, tokens, at, allow)?;
    let formula = named(alloc, told, allow)?;
    Ok((formula, to))
}

// A formula at a place, and nothing else.
fn last_formula(
    alloc: Global,
    line: &[u8],
    tokens: &[Token],
    at: usize,
    allow: Allow,
) -> Result<ToldNamed, Unread>
    requires { AreTokens line.now tokens.now }
    ensures { IfRead result (λ found. MatchOption found (read_form (forms.part forms.formula ∷ []) (ahead line.now tokens.now at) ≡ None)
        (λ t. (x : Draft) × (read_form (forms.part forms.formula ∷ []) (ahead line.now tokens.now at) ≡ Some (x, tt)) × IsTold (refusal allow x) x t)) }
{
    let (formula, at) = named_at(alloc, line, tokens, at, allow)?;
    ends_at(tokens, at)?;
    Ok(formula)
}

// A name and a formula at a place, and nothing else.
fn name_and_formula(
    alloc: Global,
    line: &[u8],
    tokens: &[Token],
    at: usize,
    allow: Allow,
) -> Result<(Name, ToldNamed), Unread>
    requires { AreTokens line.now tokens.now }
    ensures { IfRead result (λ found. MatchOption found
        (read_form (forms.part (forms.one forms.name) ∷ forms.part forms.formula ∷ []) (ahead line.now tokens.now at) ≡ None)
        (λ t. (x : Draft) × (read_form (forms.part (forms.one forms.name) ∷ forms.part forms.formula ∷ []) (ahead line.now tokens.now at)
        ≡ Some (t.0, (x, tt))) × IsTold (refusal allow x) x t.1)) }
{
    let (name, at) = name_at(alloc, line, tokens, at)?;
    let formula = last_formula(alloc, line, tokens, at, allow)?;
    Ok((name, formula))
}

// `set N FORMULA`
fn set(alloc: Global, line: &[u8], tokens: &[Token], allow: Allow) -> Result<Found, Unread>
    requires { AreTokens line.now tokens.now }
    ensures { IfRead result (λ found. found ≡ found_as allow rows.set (ahead line.now tokens.now 1)) }
{
    let (name, formula) = name_and_formula(alloc, line, tokens, 1, allow)?;
    match formula {
        Ok(formula) => Ok(statement(StatementSet::Common, Plain::Set(name, formula))),
        Err(fault) => Ok(faulty(LineKind::Plain(StatementSet::Common), fault)),
    }
}

// `log FORMULA`
fn log(alloc: Global, line: &[u8], tokens: &[Token], allow: Allow) -> Result<Found, Unread>
    requires { AreTokens line.now tokens.now }
    ensures { IfRead result (λ found. found ≡ found_as allow rows.log (ahead line.now tokens.now 1)) }
{
    match last_formula(alloc, line, tokens, 1, allow)? {
        Ok(formula) => Ok(statement(StatementSet::Common, Plain::Log(formula))),
        Err(fault) => Ok(faulty(LineKind::Plain(StatementSet::Common), fault)),
    }
}

// `when FORMULA`
fn guard(alloc: Global, line: &[u8], tokens: &[Token], allow: Allow) -> Result<Found, Unread>
    requires { AreTokens line.now tokens.now }
    ensures { IfRead result (λ found. found ≡ found_as allow rows.guard (ahead line.now tokens.now 1)) }
{
    match last_formula(alloc, line, tokens, 1, allow)? {
        Ok(formula) => Ok(sound(LineKind::Opens(StatementSet::Common), Line::When(formula))),
        Err(fault) => Ok(faulty(LineKind::Opens(StatementSet::Common), fault)),
    }
}

// `cleanup set N FORMULA`
fn cleanup_set(alloc: Global, line: &[u8], tokens: &[Token], allow: Allow) -> Result<Found, Unread>
    requires { AreTokens line.now tokens.now }
    ensures { IfRead result (λ found. found ≡ found_as allow rows.cleanup_set (ahead line.now tokens.now 1)) }
{
    let at = word_at(line, tokens, 1, b"set")?;
    let (name, formula) = name_and_formula(alloc, line, tokens, at, allow)?;
    match formula {
        Ok(formula) => Ok(statement(StatementSet::All, Plain::CleanupSet(name, formula))),
        Err(fault) => Ok(faulty(LineKind::Plain(StatementSet::All), fault)),
    }
}

// `cleanup log FORMULA`
fn cleanup_log(alloc: Global, line: &[u8], tokens: &[Token], allow: Allow) -> Result<Found, Unread>
    requires { AreTokens line.now tokens.now }
    ensures { IfRead result (λ found. found ≡ found_as allow rows.cleanup_log (ahead line.now tokens.now 1)) }
{
    let at = word_at(line, tokens, 1, b"log")?;
    match last_formula(alloc, line, tokens, at, allow)? {
        Ok(formula) => Ok(statement(StatementSet::All, Plain::CleanupLog(formula))),
        Err(fault) => Ok(faulty(LineKind::Plain(StatementSet::All), fault)),
    }
}

// A line that begins with `cleanup`.
fn cleanup(alloc: Global, line: &[u8], tokens: &[Token], allow: Allow) -> Result<Found, Unread>
    requires { AreTokens line.now tokens.now }
    ensures { IfRead result (λ found. found ≡ found_first allow (rows.cleanup_set ∷ rows.cleanup_log ∷ []) (ahead line.now tokens.now 1)) }
{
    match cleanup_set(alloc, line, tokens, allow) {
        Err(Unread::NotThere) => cleanup_log(alloc, line, tokens, allow),
        found => found,
    }
}

// `dispose N`
fn dispose(alloc: Global, line: &[u8], tokens: &[Token]) -> Result<Found, Unread>
    requires { AreTokens line.now tokens.now }
    ensures { (allow : Allow) → IfRead result (λ found. found ≡ found_as allow rows.dispose (ahead line.now tokens.now 1)) }
{
    let (name, at) = name_at(alloc, line, tokens, 1)?;
    ends_at(tokens, at)?;
    Ok(statement(StatementSet::All, Plain::Dispose(name)))
}

// `rewire N = FORMULA`
fn rewire(alloc: Global, line: &[u8], tokens: &[Token], allow: Allow) -> Result<Found, Unread>
    requires { AreTokens line.now tokens.now }
    ensures { IfRead result (λ found. found ≡ found_as allow rows.rewire (ahead line.now tokens.now 1)) }
{
    let (name, at) = name_at(alloc, line, tokens, 1)?;
    let at = symbol_at(line, tokens, at, b"=")?;
    match last_formula(alloc, line, tokens, at, allow)? {
        Ok(formula) => {
            let line = Line::Rewire(name, Source::Formula(formula));
            Ok(sound(LineKind::Plain(StatementSet::All), line))
        }
        Err(fault) => Ok(faulty(LineKind::Plain(StatementSet::All), fault)),
    }
}

// `rewire N = host K (names)`
fn host(alloc: Global, line: &[u8], tokens: &[Token]) -> Result<Found, Unread>
    requires { AreTokens line.now tokens.now }
    ensures { (allow : Allow) → IfRead result (λ found. found ≡ found_as allow rows.host (ahead line.now tokens.now 1)) }
{
    let (name, at) = name_at(alloc, line, tokens, 1)?;
    let at = symbol_at(line, tokens, at, b"=")?;
    let at = word_at(line, tokens, at, b"host")?;
    let (place, at) = count_at(line, tokens, at)?;
    let (arguments, at) = arguments_at(alloc, line, tokens, at)?;
    ends_at(tokens, at)?;
    match arguments {
        Ok(names) => {
            let line = Line::Rewire(name, Source::Host(place, names));
            Ok(sound(LineKind::Plain(StatementSet::All), line))
        }
        Err(fault) => Ok(faulty(LineKind::Plain(StatementSet::All), fault)),
    }
}

// A line that begins with `rewire`.
fn rewiring(alloc: Global, line: &[u8], tokens: &[Token], allow: Allow) -> Result<Found, Unread>
    requires { AreTokens line.now tokens.now }
    ensures { IfRead result (λ found. found ≡ found_first allow (rows.host ∷ rows.rewire ∷ []) (ahead line.now tokens.now 1)) }
{
    match host(alloc, line, tokens) {
        Err(Unread::NotThere) => rewire(alloc, line, tokens, allow),
        found => found,
    }
}

// `effect`
fn nested(tokens: &[Token]) -> Result<Found, NotThere>
    ensures { (allow : Allow) (line : List ℕ) → result_ok result ≡ found_as allow rows.effect (ahead line tokens.now 1) }
{
    ends_at(tokens, 1)?;
    Ok(sound(LineKind::Opens(StatementSet::All), Line::Effect))
}

// `end`
fn close(tokens: &[Token]) -> Result<Found, NotThere>
    ensures { (allow : Allow) (line : List ℕ) → result_ok result ≡ found_as allow rows.close (ahead line tokens.now 1) }
{
    ends_at(tokens, 1)?;
    Ok(sound(LineKind::End, Line::End))
}

// What the tokens behind one of the last words say.
fn behind_last_word(
    alloc: Global,
    line: &[u8],
    tokens: &[Token],
    word: &str,
    allow: Allow,
) -> Result<Found, Unread>
    requires { AreTokens line.now tokens.now }
    ensures { IfRead result (λ found. found ≡ found_first allow (rows_of word.now last_words) (ahead line.now tokens.now 1)) }
{
    match word {
        "effect" => Ok(nested(tokens)?),
        "dispose" => dispose(alloc, line, tokens),
        "rewire" => rewiring(alloc, line, tokens, allow),
        "end" => Ok(close(tokens)?),
        _ => Err(Unread::NotThere),
    }
}

// What the tokens behind a first word say.
fn behind_word(
    alloc: Global,
    line: &[u8],
    tokens: &[Token],
    word: &str,
    allow: Allow,
) -> Result<Found, Unread>
    requires { AreTokens line.now tokens.now }
    ensures { IfRead result (λ found. found ≡ found_first allow (rows_of word.now table) (ahead line.now tokens.now 1)) }
{
    match word {
        "set" => set(alloc, line, tokens, allow),
        "log" => log(alloc, line, tokens, allow),
        "when" => guard(alloc, line, tokens, allow),
        "cleanup" => cleanup(alloc, line, tokens, allow),
        _ => behind_last_word(alloc, line, tokens, word, allow),
    }
}

// What the tokens of a line say.
fn spelled(alloc: Global, line: &[u8], tokens: &[Token], allow: Allow) -> Result<Found, Unread>
    requires { AreTokens line.now tokens.now }
    ensures { IfRead result (λ found. found ≡ option_map (found_of allow) (said_of bodies (lexemes line.now tokens.now))) }
{
    let word = first_word(line, tokens)?;
    behind_word(alloc, line, tokens, word, allow)
}

/// What a line of at most `MOST_LINE` bytes says; `None` exactly where its bytes write nothing.
pub fn read_line(alloc: Global, line: &[u8], allow: Allow) -> Result<Option<Found>, NoMemory>
    requires { length line.now ≤ MOST_LINE }
    ensures { IfOk result (λ found. MatchOption found ((x : Said) → Writes x line.now → ⊥)
        (λ f. (x : Said) × Writes x line.now × (f ≡ found_of allow x))) }
{
    match tokens(alloc, line) {
        Ok(found) => optional(spelled(alloc, line, &found, allow)),
        Err(LineFault::Bad(_)) => Ok(None),
        Err(LineFault::TooLong) => unreachable!(),
        Err(LineFault::NoMemory(e)) => Err(e),
    }
}
