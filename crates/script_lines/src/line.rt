// The lines of a script.
ghost use Rattle.std.specs.Prelude.{◌≡◌, ◌∷◌, ◌+◌, ◌-◌, ◌<◌, ◌≤◌, ◌^◌, [], length, drop, MatchOption, IfSome};
ghost use Rattle.std.specs.List.{position};
ghost use Rattle.script_lines.specs.Lines.{lines, kept_lines, is_line_feed, without_return};
ghost use Rattle.script_lines.specs.Views.{line_of};

use crate::word::is_passed;
use memchr::memchr;

/// A line of a script and its number, counted from 1.
#[derive(Clone, Copy)]
pub struct NumberedLine<'a> {
    pub number: u32,
    pub text: &'a [u8],
}

// Where the first LF stands, by many bytes at a time.
fn line_feed(bytes: &[u8]) -> Option<usize>
    ensures { result ≡ position is_line_feed bytes.now }
{
    let place = memchr(b'\n', bytes);
    place
}

// A line's bytes without a CR at their end.
fn without_return(line: &[u8]) -> &[u8]
    ensures { result.now ≡ without_return line.now }
{
    let n = line.len();
    if n > 0 && line[n - 1] == b'\r' {
        &line[..n - 1]
    } else {
        line
    }
}

// The first line from a place on, and the place after its LF; none where nothing is left.
fn next_line(script: &[u8], at: usize) -> Option<(&[u8], usize)>
    requires { at ≤ length script.now }
    ensures within { IfSome result (λ x. (at < x.1) × (x.1 ≤ length script.now)) }
    ensures line { MatchOption result (lines (drop at script.now) ≡ []) (λ x. lines (drop at script.now) ≡ x.0.now ∷ lines (drop x.1 script.now)) }
{
    let (_, rest) = script.split_at(at);
    if rest.is_empty() {
        return None;
    }
    match line_feed(rest) {
        Some(end) => Some((without_return(&rest[..end]), at + end + 1)),
        None => Some((rest, script.len())),
    }
}

// The first line from a place on that isn't passed over, the place after it, and the number of the line there. The place
// begins a line of this number; none where no such line is left.
pub(crate) fn next_kept(
    script: &[u8],
    start: usize,
    number: u32,
) -> Option<(NumberedLine<'_>, usize, u32)>
    requires at { start ≤ length script.now }
    requires count { number + (length script.now - start) < 2 ^ 32 }
    ensures within { IfSome result (λ x. (start < x.1) × (x.1 ≤ length script.now)) }
    ensures count { IfSome result (λ x. x.2 ≤ number + (x.1 - start)) }
    ensures kept { MatchOption result (kept_lines number (drop start script.now) ≡ [])
        (λ x. kept_lines number (drop start script.now) ≡ line_of x.0 ∷ kept_lines x.2 (drop x.1 script.now)) }
{
    let mut at = start;
    let mut line = number;
    while let Some((text, next)) = next_line(script, at) {
        if !is_passed(text) {
            return Some((NumberedLine { number: line, text }, next, line + 1));
        }
        at = next;
        line += 1;
    }
    None
}
