// Reads the longest formula from a place on.
ghost use Rattle.std.specs.Prelude.{◌≡◌, ◌<◌, ◌≤◌, ℕ, length, IfOk, IfSome, MatchOption, Some, option_map};
ghost use Rattle.formula_text.specs.Slots.{IsRead, ReadsNone};
ghost use Rattle.formula_text.specs.Grammar.{before, level};
ghost use Rattle.formula_text.specs.Parser.{choice_at, each_row_at, expr, head, one_part_at, row_part_at};
ghost use Rattle.formula_text.specs.Rough.{IsPartFrom, part_of, signs_from, unboxed};

use crate::operators::{Group, group_of};
use crate::rough::{Around, OverRows, Rough};
use crate::sign::{Sign, sign_at};
use sig_base::NoMemory;
use sig_formula::BinOp;
use sig_words::Token;
use std::alloc::Global;

// The rules of the grammar from the loosest on, by number.
pub const CHOICE: u8 = 0;

pub const NEGATION: u8 = 3;

const PRIMARY: u8 = 8;

/// The rule of an operator.
pub fn level(o: BinOp) -> u8
    ensures { result ≡ level o }
{
    match group_of(o) {
        Group::Or => 1,
        Group::And => 2,
        Group::Compare => 4,
        Group::Join => 5,
        Group::Add => 6,
        Group::Multiply => 7,
    }
}

/// The loosest rule of what stands before an operator.
pub fn before(o: BinOp) -> u8
    ensures { result ≡ before o }
{
    match group_of(o) {
        Group::Or => 1,
        Group::And => 2,
        Group::Compare => 5,
        Group::Join => 5,
        Group::Add => 6,
        Group::Multiply => 7,
    }
}

// A formula, its rule, and the place after it.
type Part = (Box<Rough>, u8, usize);

// A formula in a box.
fn boxed(alloc: Global, rough: Rough) -> Result<Box<Rough>, NoMemory>
    ensures { IfOk result (λ b. b.value ≡ rough) }
{
    let held = Box::new(alloc, rough)?;
    Ok(held)
}

// A formula that was read, in a box.
fn read(alloc: Global, rough: Rough, own: u8, to: usize) -> Result<Option<Part>, NoMemory>
    ensures { IfOk result (λ found. option_map unboxed found ≡ Some (rough, own, to)) }
{
    let rough = boxed(alloc, rough)?;
    Ok(Some((rough, own, to)))
}

// What follows `if`.
#[cycle(reading)]
fn choice(alloc: Global, line: &[u8], tokens: &[Token], at: usize) -> Result<Option<Part>, NoMemory>
    ensures part { IfOk result (λ found. IfSome (option_map unboxed found) (IsPartFrom line.now tokens.now at)) }
    ensures exact { IfOk result (λ found. (n : ℕ) → length (signs_from line.now tokens.now at) < n →
        option_map (part_of line.now tokens.now) (option_map unboxed found) ≡ choice_at (expr n) (signs_from line.now tokens.now at)) }
{
    let Some((test, _, rest)) = expr(alloc, line, tokens, at, CHOICE)? else {
        return Ok(None);
    };
    let Some(Sign::Then) = sign_at(line, tokens, rest) else {
        return Ok(None);
    };
    let Some((held, _, rest)) = expr(alloc, line, tokens, rest + 1, CHOICE)? else {
        return Ok(None);
    };
    let Some(Sign::Else) = sign_at(line, tokens, rest) else {
        return Ok(None);
    };
    let Some((other, _, rest)) = expr(alloc, line, tokens, rest + 1, CHOICE)? else {
        return Ok(None);
    };
    read(alloc, Rough::If(test, held, other), CHOICE, rest)
}

// What follows `count` or `untrack`.
#[cycle(reading)]
fn one_part(
    alloc: Global,
    line: &[u8],
    tokens: &[Token],
    at: usize,
    form: Around,
) -> Result<Option<Part>, NoMemory>
    ensures part { IfOk result (λ found. IfSome (option_map unboxed found) (IsPartFrom line.now tokens.now at)) }
    ensures exact { IfOk result (λ found. (n : ℕ) → length (signs_from line.now tokens.now at) < n →
        option_map (part_of line.now tokens.now) (option_map unboxed found) ≡ one_part_at (expr n) form (signs_from line.now tokens.now at)) }
{
    let Some(Sign::Open) = sign_at(line, tokens, at) else {
        return Ok(None);
    };
    let Some((inner, _, rest)) = expr(alloc, line, tokens, at + 1, CHOICE)? else {
        return Ok(None);
    };
    let Some(Sign::Close) = sign_at(line, tokens, rest) else {
        return Ok(None);
    };
    read(alloc, Rough::Around(form, inner), PRIMARY, rest + 1)
}

// What follows `sum` or `keep`.
#[cycle(reading)]
fn each_row(
    alloc: Global,
    line: &[u8],
    tokens: &[Token],
    at: usize,
    form: OverRows,
) -> Result<Option<Part>, NoMemory>
    ensures part { IfOk result (λ found. IfSome (option_map unboxed found) (IsPartFrom line.now tokens.now at)) }
    ensures exact { IfOk result (λ found. (n : ℕ) → length (signs_from line.now tokens.now at) < n →
        option_map (part_of line.now tokens.now) (option_map unboxed found) ≡ each_row_at (expr n) form (signs_from line.now tokens.now at)) }
{
    let Some(Sign::Open) = sign_at(line, tokens, at) else {
        return Ok(None);
    };
    let Some((rows, _, rest)) = expr(alloc, line, tokens, at + 1, CHOICE)? else {
        return Ok(None);
    };
    let Some(Sign::Comma) = sign_at(line, tokens, rest) else {
        return Ok(None);
    };
    let Some((each, _, rest)) = expr(alloc, line, tokens, rest + 1, CHOICE)? else {
        return Ok(None);
    };
    let Some(Sign::Close) = sign_at(line, tokens, rest) else {
        return Ok(None);
    };
    read(alloc, Rough::OverRows(form, rows, each), PRIMARY, rest + 1)
}

// What follows `it`.
fn row_part(line: &[u8], tokens: &[Token], at: usize) -> Option<(Rough, u8, usize)>
    ensures part { IfSome result (IsPartFrom line.now tokens.now at) }
    ensures exact { option_map (part_of line.now tokens.now) result ≡ row_part_at (signs_from line.now tokens.now at) }
{
    let Some(Sign::Dot) = sign_at(line, tokens, at) else {
        return None;
    };
    let Some(Sign::Name) = sign_at(line, tokens, at + 1) else {
        return None;
    };
    Some((Rough::It(at + 1), PRIMARY, at + 2))
}

#[cycle(reading)]
fn head(
    alloc: Global,
    line: &[u8],
    tokens: &[Token],
    at: usize,
    least: u8,
) -> Result<Option<Part>, NoMemory>
    ensures part { IfOk result (λ found. IfSome (option_map unboxed found) (IsPartFrom line.now tokens.now at)) }
    ensures exact { IfOk result (λ found. (n : ℕ) → length (signs_from line.now tokens.now at) ≤ n →
        option_map (part_of line.now tokens.now) (option_map unboxed found) ≡ head (expr n) least (signs_from line.now tokens.now at)) }
{
    let Some(sign) = sign_at(line, tokens, at) else {
        return Ok(None);
    };
    match sign {
        Sign::Name => read(alloc, Rough::Name(at), PRIMARY, at + 1),
        Sign::Text => read(alloc, Rough::Text(at), PRIMARY, at + 1),
        Sign::Number(n) => read(alloc, Rough::Number(n), PRIMARY, at + 1),
        Sign::Truth(b) => read(alloc, Rough::Truth(b), PRIMARY, at + 1),
        Sign::If => {
            if least > CHOICE {
                return Ok(None);
            }
            choice(alloc, line, tokens, at + 1)
        }
        Sign::Not => {
            if least > NEGATION {
                return Ok(None);
            }
            let Some((inner, _, rest)) = expr(alloc, line, tokens, at + 1, NEGATION)? else {
                return Ok(None);
            };
            read(alloc, Rough::Not(inner), NEGATION, rest)
        }
        Sign::Around(form) => one_part(alloc, line, tokens, at + 1, form),
        Sign::OverRows(form) => each_row(alloc, line, tokens, at + 1, form),
        Sign::It => {
            let Some((rough, own, to)) = row_part(line, tokens, at + 1) else {
                return Ok(None);
            };
            read(alloc, rough, own, to)
        }
        Sign::Open => {
            let Some((inner, _, rest)) = expr(alloc, line, tokens, at + 1, CHOICE)? else {
                return Ok(None);
            };
            let Some(Sign::Close) = sign_at(line, tokens, rest) else {
                return Ok(None);
            };
            Ok(Some((inner, PRIMARY, rest + 1)))
        }
        _ => Ok(None),
    }
}

#[cycle(reading)]
fn expr(
    alloc: Global,
    line: &[u8],
    tokens: &[Token],
    at: usize,
    least: u8,
) -> Result<Option<Part>, NoMemory>
    ensures part { IfOk result (λ found. IfSome (option_map unboxed found) (IsPartFrom line.now tokens.now at)) }
    ensures exact { IfOk result (λ found. (n : ℕ) → length (signs_from line.now tokens.now at) < n →
        option_map (part_of line.now tokens.now) (option_map unboxed found) ≡ expr n least (signs_from line.now tokens.now at)) }
{
    let Some((mut left, mut own, mut rest)) = head(alloc, line, tokens, at, least)? else {
        return Ok(None);
    };
    while let Some(sign) = sign_at(line, tokens, rest) {
        let Sign::Operator(o) = sign else {
            return Ok(Some((left, own, rest)));
        };
        if level(o) < least || own < before(o) {
            return Ok(Some((left, own, rest)));
        }
        let Some((right, _, more)) = expr(alloc, line, tokens, rest + 1, level(o) + 1)? else {
            return Ok(Some((left, own, rest)));
        };
        left = boxed(alloc, Rough::Bin(o, left, right))?;
        own = level(o);
        rest = more;
    }
    Ok(Some((left, own, rest)))
}

/// The longest formula from a place on, with any height, texts and names, and the place of the token after it; none where no
/// formula begins there.
pub fn read_rough(
    alloc: Global,
    line: &[u8],
    tokens: &[Token],
    from: usize,
) -> Result<Option<(Rough, usize)>, NoMemory>
    ensures { IfOk result (λ found. MatchOption found
        (ReadsNone line.now tokens.now from)
        (λ p. IsRead line.now tokens.now from p.1 p.0)) }
{
    let Some((rough, _, to)) = expr(alloc, line, tokens, from, CHOICE)? else {
        return Ok(None);
    };
    Ok(Some((Box::into_inner(rough), to)))
}
