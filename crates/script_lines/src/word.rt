// The first word of a line, and what it says of blocks.
ghost use Rattle.std.specs.Prelude.{◌≡◌, ◌≤◌, length};
ghost use Rattle.std.specs.List.{prefix_len};
ghost use Rattle.sig_base.specs.Words.{is_blank, begins_word, in_word};
ghost use Rattle.script_lines.specs.Lines.{behind_blanks, first_word, is_passed};
ghost use Rattle.script_lines.specs.Pieces.{begins_block, closes, fronts_block, opens};

use sig_base::{begins_word, in_word, is_blank};

// How many blanks stand at the front.
fn blanks_len(line: &[u8]) -> usize
    ensures within { result ≤ length line.now }
    ensures count { result ≡ prefix_len is_blank line.now }
{
    line.iter().take_while(|b| is_blank(**b)).count()
}

// What comes after the blanks.
fn behind_blanks(line: &[u8]) -> &[u8]
    ensures { result.now ≡ behind_blanks line.now }
{
    let (_, rest) = line.split_at(blanks_len(line));
    rest
}

// Whether a line is passed over: it has nothing but blanks, or begins with `#` behind them.
#[tactic(auto, unfolding(crate::specs::Lines::is_passed))]
pub(crate) fn is_passed(line: &[u8]) -> bool
    ensures { result ≡ is_passed line.now }
{
    match behind_blanks(line) {
        [] => true,
        [first, ..] => *first == b'#',
    }
}

// How many bytes at the front may stand in a word.
fn word_len(bytes: &[u8]) -> usize
    ensures within { result ≤ length bytes.now }
    ensures count { result ≡ prefix_len in_word bytes.now }
{
    bytes.iter().take_while(|b| in_word(**b)).count()
}

// The line's first word, behind blanks; nothing where it begins with none.
fn first_word(line: &[u8]) -> &[u8]
    ensures { result.now ≡ first_word line.now }
{
    let rest = behind_blanks(line);
    if rest.is_empty() || !begins_word(rest[0]) {
        return &[];
    }
    &rest[..word_len(rest)]
}

// Whether a word that begins a block has this letter first.
fn fronts_block(letter: u8) -> bool
    ensures { result ≡ fronts_block letter }
{
    letter == b'e' || letter == b't' || letter == b'o'
}

// Whether the first word of a line outside a block begins one.
#[tactic(auto, using(sig_base::proofs::Lengths::unlike), unfolding(crate::specs::Pieces::begins_block))]
fn begins_by_word(line: &[u8]) -> bool
    ensures { result ≡ begins_block line.now }
{
    let word = first_word(line);
    match word.len() {
        2 => word == b"on".as_slice(),
        6 => word == b"effect".as_slice(),
        8 => word == b"template".as_slice(),
        _ => false,
    }
}

// Whether a line outside a block begins one. Of most lines no more than the first letter is looked at.
pub(crate) fn begins_block(line: &[u8]) -> bool
    ensures { result ≡ begins_block line.now }
{
    let rest = behind_blanks(line);
    if rest.is_empty() {
        return false;
    }
    if !fronts_block(rest[0]) {
        return false;
    }
    begins_by_word(line)
}

// Whether a line inside a block opens a level.
#[tactic(auto, using(sig_base::proofs::Lengths::unlike), unfolding(crate::specs::Pieces::opens))]
pub(crate) fn opens(line: &[u8]) -> bool
    ensures { result ≡ opens line.now }
{
    let word = first_word(line);
    match word.len() {
        2 => word == b"if".as_slice(),
        3 => word == b"tag".as_slice() || word == b"try".as_slice(),
        4 => word == b"when".as_slice() || word == b"each".as_slice(),
        6 => word == b"effect".as_slice(),
        _ => false,
    }
}

// Whether a line inside a block closes a level.
#[tactic(auto, unfolding(crate::specs::Pieces::closes))]
pub(crate) fn closes(line: &[u8]) -> bool
    ensures { result ≡ closes line.now }
{
    first_word(line) == b"end".as_slice()
}
