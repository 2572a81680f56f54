// What is known of kept lines before they are gone over. It decides what is looked at, and nothing of what comes of it.

use crate::renewing::round::Round;
use tpl_model::{Change, PageMemo};

/// What is known of kept lines, and what is done for it.
#[derive(Clone, Copy)]
pub(crate) enum Look {
    /// All of their names may have the outcomes of before: they are heard again first.
    First,
    /// One of their names has another outcome: they are gone over, and what is behind the one that changed is heard first.
    Changed,
    /// One of their names has another outcome, and they were heard first: they are gone over.
    Late,
    /// Lines before them have changed, and they were heard first: they are gone over.
    Over,
}

/// Whether the names of lines are heard again before the lines are gone over.
pub(crate) fn hears_first(look: Look) -> bool {
    matches!(look, Look::First)
}

/// Whether the names of lines are heard again before the lines are gone over, where these begin with a text or an element, which are brought up to
/// date where they are kept; where no line is left none is heard.
pub(crate) fn looks_first(look: Look, memo: &PageMemo) -> bool {
    match memo {
        PageMemo::Blank => true,
        PageMemo::Line(_, _) => hears_first(look),
        PageMemo::Element(_, _, _) => hears_first(look),
        _ => false,
    }
}

// Whether a name of lines that are gone over is known to have another outcome, and it is none of the first line.
fn is_behind(look: Look, heard: bool) -> bool {
    match look {
        Look::First => heard,
        Look::Changed => heard,
        Look::Late => heard,
        Look::Over => false,
    }
}

// Whether no line comes.
fn is_end(memo: Option<&PageMemo>) -> bool {
    match memo {
        Some(PageMemo::Blank) => true,
        _ => false,
    }
}

// What is known of the lines inside the first one, where they stand once and no line is behind it, or not: what has changed stands there then.
fn look_in(look: Look, heard: bool, alone: bool) -> Look {
    if is_behind(look, heard) && alone {
        return Look::Changed;
    }
    Look::First
}

/// What is known of the lines inside the first one, which are gone over so often, where `heard` says whether all names of that have the outcomes of
/// before: where no line is behind it and those inside stand once, what has changed stands there.
pub(crate) fn look_inside(look: Look, heard: bool, count: usize, later: &Round) -> Look {
    look_in(look, heard, count == 1 && is_end(later.left().first()))
}

/// What is known of the lines inside the first one, which stand once.
pub(crate) fn look_within(look: Look, heard: bool, later: &PageMemo) -> Look {
    look_in(look, heard, is_end(Some(later)))
}

// Whether all that is kept stays.
fn all_stay(changes: &[Change]) -> bool {
    for change in changes {
        if !matches!(change, Change::Stays) {
            return false;
        }
    }
    true
}

// What is known of the lines behind one, where what has changed is behind it, or where it isn't known to be: lines are heard first once, behind the first
// that has changed.
fn look_on(look: Look, behind: bool) -> Look {
    match look {
        Look::First => { if behind { Look::Late } else { Look::Over } }
        Look::Changed => { if behind { Look::Changed } else { Look::First } }
        Look::Late => { if behind { Look::Late } else { Look::Over } }
        Look::Over => Look::Over,
    }
}

/// What is known of the lines behind the first one, of which the inside was gone over: where all stays there, what has changed is behind it.
pub(crate) fn look_behind(look: Look, heard: bool, inside: &[Change]) -> Look {
    let behind = is_behind(look, heard) && all_stay(inside);
    look_on(look, behind)
}
