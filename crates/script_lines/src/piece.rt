// The lines of each command of a script.
ghost use Rattle.std.specs.Prelude.{◌≡◌, ℕ, List, ◌∷◌, ◌++◌, ◌+◌, ◌-◌, ◌<◌, ◌≤◌, ◌^◌, [], length, drop, map, MatchOption, IfSome, IfOk};
ghost use Rattle.script_lines.specs.Lines.{EndsLine, kept_lines, lines};
ghost use Rattle.script_lines.specs.Pieces.{outside, inside, level_after, pieces, pieces_of, place_after};
ghost use Rattle.script_lines.specs.Views.{line_of, piece_of};

use crate::line::{NumberedLine, next_kept};
use crate::word::{begins_block, closes, opens};
use sig_base::NoMemory;
use std::alloc::Global;

/// The lines of a command, the first and the others, and whether its end is there. A command of one line takes no memory.
#[derive(Drop)]
pub struct Piece<'a> {
    pub ended: bool,
    pub first: NumberedLine<'a>,
    pub others: Vec<NumberedLine<'a>>,
}

// How many levels are open after a line of a block.
fn level_after(level: usize, line: &[u8]) -> usize
    requires some { 0 < level }
    requires few { level < 2 ^ 63 }
    ensures { result ≡ level_after level line.now }
{
    if opens(line) {
        level + 1
    } else if closes(line) {
        level - 1
    } else {
        level
    }
}

// The block that this line begins: all its lines, the place after it, and the number of the line there.
fn rest_of_block<'a>(
    alloc: Global,
    script: &'a [u8],
    start: usize,
    number: u32,
    first: NumberedLine<'a>,
) -> Result<(Piece<'a>, usize, u32), NoMemory>
    requires at { start ≤ length script.now }
    requires count { number + (length script.now - start) < 2 ^ 32 }
    ensures within { IfOk result (λ x. (start ≤ x.1) × (x.1 ≤ length script.now)) }
    ensures count { IfOk result (λ x. x.2 ≤ number + (x.1 - start)) }
    ensures piece { IfOk result (λ x. pieces (inside 1 (line_of first.entry ∷ [])) (kept_lines number (drop start script.now))
        ≡ piece_of x.0 ∷ pieces_of x.2 (drop x.1 script.now)) }
{
    let mut others = Vec::new(alloc);
    let mut at = start;
    let mut line = number;
    let mut level: usize = 1;
    while let Some((found, next, after)) = next_kept(script, at, line) {
        level = level_after(level, found.text);
        others.push(found)?;
        at = next;
        line = after;
        if level == 0 {
            return Ok((
                Piece {
                    ended: true,
                    first,
                    others,
                },
                at,
                line,
            ));
        }
    }
    Ok((
        Piece {
            ended: false,
            first,
            others,
        },
        at,
        line,
    ))
}

/// The lines of the first command from a byte on, the place after them, and the number of the line there. The byte
/// begins a line of this number; `None` exactly where nothing is left but lines that are passed over.
///
/// An LF ends a line, and a CR just before it is no part of the line. A line of nothing but blanks, and one that begins
/// with `#` behind blanks, is passed over, in a block too: it counts for line numbers and for nothing else.
///
/// A command is one line, or a block: from a line whose first word is `effect`, `template` or `on` to the `end` that
/// closes it, where `effect`, `when`, `tag`, `if`, `each` and `try` open a level and `end` closes one, whatever the rest of
/// the line says. A block that the script's end cuts off isn't `ended`. `NoMemory` where the lines find no room.
pub fn next_piece(
    alloc: Global,
    script: &[u8],
    at: usize,
    line: u32,
) -> Result<Option<(Piece<'_>, usize, u32)>, NoMemory>
    requires at { at ≤ length script.now }
    requires count { line + (length script.now - at) < 2 ^ 32 }
    ensures within { IfOk result (λ found. IfSome found (λ x. (at < x.1) × (x.1 ≤ length script.now))) }
    ensures count { IfOk result (λ found. IfSome found (λ x. x.2 ≤ line + (x.1 - at))) }
    ensures piece { IfOk result (λ found. MatchOption found (pieces_of line (drop at script.now) ≡ [])
        (λ x. pieces_of line (drop at script.now) ≡ piece_of x.0 ∷ pieces_of x.2 (drop x.1 script.now))) }
{
    let Some((first, next, after)) = next_kept(script, at, line) else {
        return Ok(None);
    };
    if begins_block(first.text) {
        return Ok(Some(rest_of_block(alloc, script, next, after, first)?));
    }
    let others = Vec::new(alloc);
    Ok(Some((
        Piece {
            ended: true,
            first,
            others,
        },
        next,
        after,
    )))
}

/// A script may be cut after a line, outside a block: its pieces are those of the two parts in turn.
pub fn cut_law()
    ensures { (n : ℕ) (x y : List ℕ) → EndsLine x → place_after outside (kept_lines n x) ≡ outside
        → pieces_of n (x ++ y) ≡ pieces_of n x ++ pieces_of (n + length (lines x)) y }
{}
