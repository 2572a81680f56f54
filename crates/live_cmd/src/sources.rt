// Reads the lines of computeds.
ghost use Rattle.std.specs.Prelude.{◌≡◌, ◌∷◌, [], ℕ, List, true, codes, option_map};
ghost use Rattle.sig_base.specs.Words.{is_name};
ghost use Rattle.sig_words.specs.Lexemes.{word};
ghost use Rattle.sig_words.specs.Tokens.{AreTokens};
ghost use Rattle.formula_text.specs.Grammar.{Draft};
ghost use Rattle.formula_text.specs.Rough.{draft, HasLeaves};
ghost use Rattle.line_forms.specs.Forms as form;
ghost use Rattle.line_forms.specs.Reader.{read_form};
ghost use Rattle.line_forms.specs.Reads.{IfRead};
ghost use Rattle.line_forms.specs.Told.{ahead, IsToldArguments, IsToldFormula};
ghost use Rattle.live_cmd.specs.Grammar as rows;
ghost use Rattle.live_cmd.specs.Refusals.{tracked};
ghost use Rattle.live_cmd.specs.Views.{found_first, found_of};

use crate::line::{Found, alone, faulty};
use crate::names::{inside_text_last, made, made_owned, name_text_at};
use crate::reader::TRACKED;
use crate::{Command, SourceText};
use formula_text::Rough;
use line_forms::{
    ToldArguments, ToldFormula, Unread, arguments_at, count_at, ends_at, rough_at, symbol_at, told,
    word_at,
};
use sig_base::Name;
use sig_words::Token;
use std::alloc::Global;

// What is found of a computed of a formula, or what is wrong with the formula.
fn computed_found(name: Name, formula: ToldFormula, inside: Option<Name>) -> Found
    ensures { (x : Draft) → IsToldFormula tracked x formula → result ≡ found_of (rows.computed, (name, (x, (inside, tt)))) }
{
    match formula {
        Ok(formula) => {
            let source = SourceText::Formula(formula);
            alone(Command::Computed {
                name,
                source,
                inside,
            })
        }
        Err(fault) => faulty(fault),
    }
}

// `[in O]`, behind the name of a computed and its formula, which is judged last, so that what it is crosses no early end.
fn computed_of(
    alloc: Global,
    line: &[u8],
    tokens: &[Token],
    name: &str,
    rough: &Rough,
    at: usize,
) -> Result<Found, Unread>
    requires of_line { AreTokens line.now tokens.now }
    requires name { is_name name.now ≡ true }
    requires leaves { HasLeaves line.now tokens.now rough.now }
    ensures { IfRead result (λ found. found ≡ option_map (λ a. found_of (rows.computed, a)) (option_map (λ a. (name.now, a))
        (option_map (λ a. (draft line.now tokens.now rough.now, a)) (read_form (rows.in_O ∷ []) (ahead line.now tokens.now at))))) }
{
    let inside = inside_text_last(line, tokens, at)?;
    let (name, inside) = made_owned(alloc, name, inside)?;
    let formula = told(alloc, line, tokens, rough, TRACKED)?;
    Ok(computed_found(name, formula, inside))
}

// `FORMULA [in O]`, behind the name of a computed and `=`
fn computed(
    alloc: Global,
    line: &[u8],
    tokens: &[Token],
    name: &str,
    at: usize,
) -> Result<Found, Unread>
    requires of_line { AreTokens line.now tokens.now }
    requires name { is_name name.now ≡ true }
    ensures { IfRead result (λ found. found ≡ option_map (λ a. found_of (rows.computed, a))
        (option_map (λ a. (name.now, a)) (read_form (form.part form.formula ∷ rows.in_O ∷ []) (ahead line.now tokens.now at)))) }
{
    let (rough, at) = rough_at(alloc, line, tokens, at)?;
    let found = computed_of(alloc, line, tokens, name, &rough, at)?;
    Ok(found)
}

// What is found of a computed of a host formula, or what is wrong with the arguments.
fn computed_host_found(
    name: Name,
    place: u64,
    arguments: ToldArguments,
    inside: Option<Name>,
) -> Found
    ensures { (ns : List (List ℕ)) → IsToldArguments ns arguments
        → result ≡ found_of (rows.computed_host, (name, (place, (ns, (inside, tt))))) }
{
    match arguments {
        Ok(arguments) => {
            let source = SourceText::Host(place, arguments);
            alone(Command::Computed {
                name,
                source,
                inside,
            })
        }
        Err(fault) => faulty(fault),
    }
}

// `host K (a, b) [in O]`, behind the name of a computed and `=`
fn computed_host(
    alloc: Global,
    line: &[u8],
    tokens: &[Token],
    name: &str,
    at: usize,
) -> Result<Found, Unread>
    requires { is_name name.now ≡ true }
    ensures { IfRead result (λ found. found ≡ option_map (λ a. found_of (rows.computed_host, a))
        (option_map (λ a. (name.now, a))
        (read_form (form.fixed (word (codes "host"))
        ∷ form.part (form.one form.count) ∷ form.part form.arguments ∷ rows.in_O ∷ []) (ahead line.now tokens.now at)))) }
{
    let at = word_at(line, tokens, at, b"host")?;
    let (place, at) = count_at(line, tokens, at)?;
    let (arguments, at) = arguments_at(alloc, line, tokens, at)?;
    let inside = inside_text_last(line, tokens, at)?;
    let (name, inside) = made_owned(alloc, name, inside)?;
    Ok(computed_host_found(name, place, arguments, inside))
}

/// `computed N = SOURCE [in O]`
pub fn any_computed(alloc: Global, line: &[u8], tokens: &[Token]) -> Result<Found, Unread>
    requires { AreTokens line.now tokens.now }
    ensures { IfRead result (λ found. found ≡ found_first (rows.computed_host ∷ rows.computed ∷ []) (ahead line.now tokens.now 1)) }
{
    let (name, at) = name_text_at(line, tokens, 1)?;
    let at = symbol_at(line, tokens, at, b"=")?;
    match computed_host(alloc, line, tokens, name, at) {
        Err(Unread::NotThere) => computed(alloc, line, tokens, name, at),
        found => found,
    }
}

// What is found of another formula of a computed, or what is wrong with it.
fn rewire_found(name: Name, formula: ToldFormula) -> Found
    ensures { (x : Draft) → IsToldFormula tracked x formula → result ≡ found_of (rows.rewire, (name, (x, tt))) }
{
    match formula {
        Ok(formula) => {
            let source = SourceText::Formula(formula);
            alone(Command::Rewire { name, source })
        }
        Err(fault) => faulty(fault),
    }
}

// The end of the line behind the name of a computed and another formula, which is judged last.
fn rewire_of(
    alloc: Global,
    line: &[u8],
    tokens: &[Token],
    name: &str,
    rough: &Rough,
    at: usize,
) -> Result<Found, Unread>
    requires of_line { AreTokens line.now tokens.now }
    requires name { is_name name.now ≡ true }
    requires leaves { HasLeaves line.now tokens.now rough.now }
    ensures { IfRead result (λ found. found ≡ option_map (λ a. found_of (rows.rewire, a)) (option_map (λ a. (name.now, a))
        (option_map (λ a. (draft line.now tokens.now rough.now, a)) (read_form [] (ahead line.now tokens.now at))))) }
{
    ends_at(tokens, at)?;
    let name = made(alloc, name)?;
    let formula = told(alloc, line, tokens, rough, TRACKED)?;
    Ok(rewire_found(name, formula))
}

// `FORMULA`, behind the name of a computed and `=`
fn rewire(
    alloc: Global,
    line: &[u8],
    tokens: &[Token],
    name: &str,
    at: usize,
) -> Result<Found, Unread>
    requires of_line { AreTokens line.now tokens.now }
    requires name { is_name name.now ≡ true }
    ensures { IfRead result (λ found. found ≡ option_map (λ a. found_of (rows.rewire, a))
        (option_map (λ a. (name.now, a)) (read_form (form.part form.formula ∷ []) (ahead line.now tokens.now at)))) }
{
    let (rough, at) = rough_at(alloc, line, tokens, at)?;
    let found = rewire_of(alloc, line, tokens, name, &rough, at)?;
    Ok(found)
}

// What is found of another host formula of a computed, or what is wrong with its arguments.
fn rewire_host_found(name: Name, place: u64, arguments: ToldArguments) -> Found
    ensures { (ns : List (List ℕ)) → IsToldArguments ns arguments → result ≡ found_of (rows.rewire_host, (name, (place, (ns, tt)))) }
{
    match arguments {
        Ok(arguments) => {
            let source = SourceText::Host(place, arguments);
            alone(Command::Rewire { name, source })
        }
        Err(fault) => faulty(fault),
    }
}

// `host K (a, b)`, behind the name of a computed and `=`
fn rewire_host(
    alloc: Global,
    line: &[u8],
    tokens: &[Token],
    name: &str,
    at: usize,
) -> Result<Found, Unread>
    requires { is_name name.now ≡ true }
    ensures { IfRead result (λ found. found ≡ option_map (λ a. found_of (rows.rewire_host, a))
        (option_map (λ a. (name.now, a))
        (read_form (form.fixed (word (codes "host"))
        ∷ form.part (form.one form.count) ∷ form.part form.arguments ∷ []) (ahead line.now tokens.now at)))) }
{
    let at = word_at(line, tokens, at, b"host")?;
    let (place, at) = count_at(line, tokens, at)?;
    let (arguments, at) = arguments_at(alloc, line, tokens, at)?;
    ends_at(tokens, at)?;
    let name = made(alloc, name)?;
    Ok(rewire_host_found(name, place, arguments))
}

/// `rewire N = SOURCE`
pub fn any_rewire(alloc: Global, line: &[u8], tokens: &[Token]) -> Result<Found, Unread>
    requires { AreTokens line.now tokens.now }
    ensures { IfRead result (λ found. found ≡ found_first (rows.rewire_host ∷ rows.rewire ∷ []) (ahead line.now tokens.now 1)) }
{
    let (name, at) = name_text_at(line, tokens, 1)?;
    let at = symbol_at(line, tokens, at, b"=")?;
    match rewire_host(alloc, line, tokens, name, at) {
        Err(Unread::NotThere) => rewire(alloc, line, tokens, name, at),
        found => found,
    }
}
