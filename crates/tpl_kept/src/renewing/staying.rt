// Lines that stay, though nothing is heard, since they read no name.
ghost use Rattle.std.specs.Prelude.{◌≡◌, ◌≤◌, ◌++◌, [], drop, false, length, map, replicate, true, IfOk, OnOk};
ghost use Rattle.tpl_model.specs.KeptLines.Changes.{changed, stays};
ghost use Rattle.tpl_model.specs.KeptLines.Kept.{heard_of, kept};
ghost use Rattle.tpl_model.specs.PageUpdates.PageMemos.{all_names};
ghost use Rattle.tpl_kept.specs.Listed.{listed};
ghost use Rattle.tpl_kept.specs.Nameless.{AreNameless, KeepsFront, ReadNone, ReadsNone};
ghost use Rattle.tpl_kept.specs.Renewals.{is_unread};
ghost use Rattle.tpl_kept.specs.Rounds.{done_of, was_of};

use crate::renewing::looking::{Look, hears_first};
use crate::renewing::parts::unread;
use crate::renewing::places::{Places, count_places};
use crate::renewing::round::Round;
use sig_base::{NoMemory, NodeId};
use tpl_model::{Change, Heard, PageMemo};

// Whether there is no name.
fn is_none(names: &[NodeId]) -> bool
    ensures { result ≡ true → names.now ≡ [] }
{
    names.is_empty()
}

// Whether no formula of attributes read a name.
fn none_read(all: &[Heard]) -> bool
    ensures { result ≡ true → all_names (map heard_of all.now) ≡ [] }
{
    let Some((heard, others)) = all.split_first() else {
        return true;
    };
    is_none(&heard.names) && none_read(others)
}

// Whether something is kept that read no name; a loop isn't looked into.
fn reads_none(memo: &PageMemo) -> bool
    ensures { result ≡ true → ReadsNone (kept memo.now) }
{
    match memo {
        PageMemo::Unread => false,
        PageMemo::Blank => true,
        PageMemo::Line(line, rest) => is_none(&line.names) && reads_none(rest),
        PageMemo::Element(all, inner, rest) => {
            none_read(all) && reads_none(inner) && reads_none(rest)
        }
        PageMemo::Branch(test, inner, rest) => {
            is_none(&test.names) && reads_none(inner) && reads_none(rest)
        }
        PageMemo::Loop(_, _, _) => false,
        PageMemo::Either(_, _, _) => false,
    }
}

// Whether something is kept that read no name; of some lines it is known that they read none.
fn is_quiet(silent: bool, memo: &PageMemo) -> bool
    requires { silent ≡ true → is_unread (kept memo.now) ≡ false → ReadsNone (kept memo.now) }
    ensures { result ≡ true → ReadsNone (kept memo.now) }
{
    if silent {
        return !unread(memo);
    }
    reads_none(memo)
}

// How many of the first of what was kept read no name, of at most so many; of some lines it is known that they read none.
fn count_front(silent: bool, most: usize, memos: &[PageMemo]) -> usize
    requires { silent ≡ true → AreNameless most (map kept memos.now) }
    ensures most { result ≤ most }
    ensures none { ReadNone result (map kept memos.now) }
{
    for count in 0..most {
        let Some(memo) = memos.get(count) else {
            return count;
        };
        if !is_quiet(silent, memo) {
            return count;
        }
    }
    most
}

// Puts behind what became of lines that so many of them stay.
fn put_stays(changes: &mut Vec<Change>, count: usize) -> Result<(), NoMemory>
    ensures { OnOk result (map changed changes.new.items ≡ map changed changes.old.items ++ replicate count stays) }
{
    changes.reserve(count)?;
    for _put in 0..count {
        changes.push_reserved(Change::stays());
    }
    Ok(())
}

/// What was kept in the first of the rows that are left stays, as far as it does without a look at it; gives where the others are left. Of some lines it
/// is known that they read no name.
///
/// # Errors
///
/// `NoMemory` alone.
pub(crate) fn keep_front(
    look: Look,
    silent: bool,
    rows: Places<'_>,
    at: usize,
    round: &mut Round,
    changes: &mut Vec<Change>,
) -> Result<usize, NoMemory>
    requires { silent ≡ true → AreNameless (length (drop at (listed rows))) (was_of round.old) }
    ensures { IfOk result (λ n. KeepsFront (drop at (listed rows.entry)) (was_of round.old) (done_of round.old) (map changed changes.old.items)
        (drop n (listed rows.entry)) (was_of round.new) (done_of round.new) (map changed changes.new.items)) }
{
    if !hears_first(look) {
        return Ok(at);
    }
    let most = count_places(rows).saturating_sub(at);
    let count = count_front(silent, most, round.left());
    put_stays(changes, count)?;
    round.keep(count);
    let next = at + count;
    Ok(next)
}
