// Rows of before, looked for by key.
ghost use Rattle.std.specs.Prelude.{◌≡◌, ◌<◌, ◌≤◌, ◌+◌, ◌-◌, ℕ, List, length, map, slice_set, IfOk, IfSome, OnOk, None, false, true};
ghost use Rattle.std.specs.Cmp.Lexicographic.{pointwise};
ghost use Rattle.std.specs.Str.{bytes_eq};
ghost use Rattle.sig_base.specs.Tables.{Table};
ghost use Rattle.sig_base.specs.declared.rows.Row.{Row as ARow};
ghost use Rattle.tpl_model.specs.Lines as model;
ghost use Rattle.tpl_model.specs.Sources.{same_here};
ghost use Rattle.tpl_hearing.specs.Heard as hearing;
ghost use Rattle.tpl_model.specs.KeptLines.Changes.{keys_in};
ghost use Rattle.tpl_model.specs.KeptLines.Kept.{kept};
ghost use Rattle.tpl_model.specs.KeptLines.Memos.{table_in};
ghost use Rattle.tpl_kept.specs.Renewals.{is_unread, SlotsWere, TakesRow};
ghost use Rattle.tpl_kept.specs.Heads.{places_from};
ghost use Rattle.tpl_model.specs.PageUpdates.PageMemos as page;
ghost use Rattle.tpl_kept.specs.Turns.{AreAlike, AreAmong, KeysLeft, RowsStand, ServeRows, WereEach};

use indexmap::IndexMap;
use sig_base::{NoMemory, Outcome, Row, Rows, Text, Value};
use std::alloc::Global;
use std::mem;
use tpl_model::PageMemo;

// How often rows of before are gone over for a key, before a table of them is made.
const LOOKS: usize = 8;

// Where rows of before are looked for by their keys, for rows one after the other: first behind the one that was found last, then among those between
// two places as often as there are looks left, and at last in a table.
#[derive(Drop)]
struct Search {
    from: usize,
    to: usize,
    behind: usize,
    looks: usize,
    places: Option<IndexMap<Text, usize>>,
}

// Whether a row of this key stands at a place.
fn has_key(rows: &[Row], place: usize, key: &Text) -> bool {
    match rows.get(place) {
        None => false,
        Some(row) => row.key == *key,
    }
}

// The place of the row of a key, behind the row that was found last or before it.
fn place_around(search: &Search, rows: &[Row], key: &Text) -> Option<usize> {
    for place in search.behind..search.to {
        if has_key(rows, place, key) {
            return Some(place);
        }
    }
    for place in search.from..search.behind {
        if has_key(rows, place, key) {
            return Some(place);
        }
    }
    None
}

// The places of rows by their keys.
fn table_of(alloc: Global, rows: &[Row]) -> Result<IndexMap<Text, usize>, NoMemory> {
    let mut places = IndexMap::new(alloc);
    for (place, row) in rows.iter().enumerate() {
        places.insert(row.key.copy()?, place)?;
    }
    Ok(places)
}

// The place of the row of before of a key.
fn place_by_key(
    alloc: Global,
    search: &mut Search,
    rows: &[Row],
    key: &Text,
) -> Result<Option<usize>, NoMemory> {
    if has_key(rows, search.behind, key) {
        return Ok(Some(search.behind));
    }
    if search.looks > 0 {
        search.looks -= 1;
        return Ok(place_around(search, rows, key));
    }
    if search.places.is_none() {
        let places = table_of(alloc, rows)?;
        search.places = Some(places);
    }
    match &search.places {
        None => Ok(None),
        Some(places) => Ok(places.get(key).copied()),
    }
}

// Whether two lists of rows have the same fields.
fn same_fields(was: &Rows, rows: &Rows) -> bool
    ensures { result ≡ true → pointwise bytes_eq was.now.fields rows.now.fields ≡ true }
{
    was.fields() == rows.fields()
}

// Whether two rows of tables are alike; it is known whether these have the same fields.
fn alike(fields: bool, was: &Rows, at: usize, rows: &Rows, place: usize) -> bool
    requires fields { fields ≡ true → pointwise bytes_eq was.now.fields rows.now.fields ≡ true }
    requires place { place < length rows.now.rows }
    ensures inside { result ≡ true → at < length was.now.rows }
    ensures same { result ≡ true → same_here (record { rows = was.now; place = at }) (record { rows = rows.now; place = place }) ≡ true }
{
    fields && at < was.len() && was.row(at) == rows.row(place)
}

// The place of a row of the same key and values: mostly it is the one behind the row that was found last.
fn same_place(
    alloc: Global,
    fields: bool,
    search: &mut Search,
    was: &Rows,
    rows: &Rows,
    place: usize,
) -> Result<Option<usize>, NoMemory>
    requires fields { fields ≡ true → pointwise bytes_eq was.now.fields rows.now.fields ≡ true }
    requires place { place < length rows.now.rows }
    ensures inside { IfOk result (λ o. IfSome o (λ at. at < length was.now.rows)) }
    ensures same { IfOk result (λ o. IfSome o (λ at. same_here (record { rows = was.now; place = at }) (record { rows = rows.now; place = place }) ≡ true)) }
{
    let next = search.behind;
    if alike(fields, was, next, rows, place) {
        search.behind = next.saturating_add(1);
        return Ok(Some(next));
    }
    let found = place_by_key(alloc, search, was.rows(), &rows.row(place).key)?;
    let Some(at) = found else {
        return Ok(None);
    };
    search.behind = at.saturating_add(1);
    if alike(fields, was, at, rows, place) {
        return Ok(Some(at));
    }
    Ok(None)
}

// Takes what was kept of the row at a place, where there is one; what was kept of the rows from a place on is left.
fn take_row(old: &mut Vec<PageMemo>, from: usize, place: Option<usize>) -> PageMemo
    ensures takes { (b : model.Block) (links : List ℕ) (t : Table) (before : hearing.Outcomes) → SlotsWere b links t from before (map kept old.old.items) →
        TakesRow b links t from before place (kept result) (map kept old.new.items) }
    ensures nothing { place ≡ None → is_unread (kept result) ≡ true }
{
    let Some(place) = place else {
        return PageMemo::Unread;
    };
    if place < from {
        return PageMemo::Unread;
    }
    let at = place - from;
    if at >= old.len() {
        return PageMemo::Unread;
    }
    mem::replace(&mut old[at], PageMemo::Unread)
}

// Puts what was kept for the rows from a place to another, each where a row of the same key and values stood before, behind what is kept for those in
// front. What was kept is that of the rows of before from the first place on.
fn put_found(
    alloc: Global,
    fields: bool,
    was: &Rows,
    rows: &Rows,
    search: Search,
    last: usize,
    memos: Vec<PageMemo>,
    taken: &mut Vec<PageMemo>,
) -> Result<(), NoMemory>
    requires fields { fields ≡ true → pointwise bytes_eq was.now.fields rows.now.fields ≡ true }
    requires last { last ≤ length rows.now.rows }
    requires front { search.from ≤ last }
    requires count { length taken.old.items ≡ search.from }
    ensures count { OnOk result (length taken.new.items ≡ last) }
    ensures serve { (b : model.Block) (links : List ℕ) (before : hearing.Outcomes) → SlotsWere b links was.now search.from before (map kept memos.items) →
        WereEach b links (places_from rows.now 0 search.from) before (map kept taken.old.items) →
        OnOk result (WereEach b links (places_from rows.now 0 last) before (map kept taken.new.items)) }
    ensures among { AreAmong was.now (places_from rows.now 0 search.from) (map kept taken.old.items) →
        OnOk result (AreAmong was.now (places_from rows.now 0 last) (map kept taken.new.items)) }
{
    let from = search.from;
    let mut search = search;
    let mut left = memos;
    for place in from..last {
        let at = same_place(alloc, fields, &mut search, was, rows, place)?;
        let one = take_row(&mut left, from, at);
        taken.push(one)?;
    }
    Ok(())
}

// How many of the last rows have the keys and the values of those that stood last before, of at most so many.
fn count_back(fields: bool, was: &Rows, rows: &Rows, most: usize) -> usize
    requires fields { fields ≡ true → pointwise bytes_eq was.now.fields rows.now.fields ≡ true }
    requires was { most ≤ length was.now.rows }
    requires rows { most ≤ length rows.now.rows }
    ensures most { result ≤ most }
    ensures alike { AreAlike was.now (length was.now.rows - result) rows.now (length rows.now.rows - result) result }
{
    for count in 0..most {
        let at = was.len() - 1 - count;
        let place = rows.len() - 1 - count;
        if !alike(fields, was, at, rows, place) {
            return count;
        }
    }
    most
}

// How many rows two lists of rows both have.
fn fewer(was: &Rows, rows: &Rows) -> usize
    ensures was { result ≤ length was.now.rows }
    ensures rows { result ≤ length rows.now.rows }
    ensures most { (n : ℕ) → n ≤ length was.now.rows → n ≤ length rows.now.rows → n ≤ result }
{
    if was.len() < rows.len() {
        return was.len();
    }
    rows.len()
}

// What was kept for rows, each where there now is a row of the same key and values; that of so many of the first rows stays where it is, and so does
// that of the last ones that are alike.
fn rows_found(
    alloc: Global,
    fields: bool,
    was: &Rows,
    rows: &Rows,
    front: usize,
    memos: Vec<PageMemo>,
) -> Result<Vec<PageMemo>, NoMemory>
    requires fields { fields ≡ true → pointwise bytes_eq was.now.fields rows.now.fields ≡ true }
    requires count { length memos.items ≡ length was.now.rows }
    requires was { front ≤ length was.now.rows }
    requires rows { front ≤ length rows.now.rows }
    ensures { (old : List page.PageMemo) → RowsStand was.now rows.now front old (map kept memos.items) → IfOk result (λ ms.
        ServeRows was.now rows.now old (map kept ms.items) × AreAmong was.now (places_from rows.now 0 (length rows.now.rows)) (map kept ms.items)) }
{
    let back = count_back(fields, was, rows, fewer(was, rows) - front);
    let search = Search {
        from: front,
        to: was.len() - back,
        behind: front,
        looks: LOOKS,
        places: None,
    };
    let last = rows.len() - back;
    let mut taken = memos;
    let mut left = taken.split_off(front)?;
    let mut behind = left.split_off(was.len() - back - front)?;
    taken.reserve(rows.len() - front)?;
    put_found(alloc, fields, was, rows, search, last, left, &mut taken)?;
    taken.append(&mut behind)?;
    Ok(taken)
}

// Nothing is kept at a place.
fn leave_row(memos: &mut Vec<PageMemo>, place: usize)
    ensures { map kept memos.new.items ≡ slice_set (map kept memos.old.items) place page.unread }
{
    if place < memos.len() {
        memos[place] = PageMemo::Unread;
    }
}

// Whether a row has the key of the row that stood at its place: then what was kept of it stays there where it has its values still, and is left where
// it hasn't.
fn keep_row(fields: bool, was: &Rows, rows: &Rows, place: usize, memos: &mut Vec<PageMemo>) -> bool
    requires fields { fields ≡ true → pointwise bytes_eq was.now.fields rows.now.fields ≡ true }
    requires place { place < length rows.now.rows }
    requires there { place < length was.now.rows }
    ensures keys { result ≡ true → KeysLeft was.now.rows rows.now.rows place → KeysLeft was.now.rows rows.now.rows (place + 1) }
    ensures other { result ≡ false → memos.new.items ≡ memos.old.items }
    ensures stand { result ≡ true → (old : List page.PageMemo) → RowsStand was.now rows.now place old (map kept memos.old.items) → RowsStand was.now rows.now (place + 1) old (map kept memos.new.items) }
{
    if alike(fields, was, place, rows, place) {
        return true;
    }
    let same = was.row(place).key == rows.row(place).key;
    if !same {
        return false;
    }
    leave_row(memos, place);
    true
}

// How many of the first rows have the keys of those that stood before them, in the same order. What was kept of such a row stays at its place where it
// has its values still, and is left where it hasn't.
fn rows_stand(fields: bool, was: &Rows, rows: &Rows, memos: &mut Vec<PageMemo>) -> usize
    requires { fields ≡ true → pointwise bytes_eq was.now.fields rows.now.fields ≡ true }
    ensures was { result ≤ length was.now.rows }
    ensures rows { result ≤ length rows.now.rows }
    ensures keys { KeysLeft was.now.rows rows.now.rows result }
    ensures stand { RowsStand was.now rows.now result (map kept memos.old.items) (map kept memos.new.items) }
{
    let most = fewer(was, rows);
    for place in 0..most {
        if !keep_row(fields, was, rows, place, memos) {
            return place;
        }
    }
    most
}

// What was kept for rows, each where there now is a row of the same key and values, and whether the rows are known to have the same keys, in the same
// order.
fn rows_kept(
    alloc: Global,
    fields: bool,
    was: &Rows,
    rows: &Rows,
    memos: Vec<PageMemo>,
) -> Result<(Vec<PageMemo>, bool), NoMemory>
    requires { fields ≡ true → pointwise bytes_eq was.now.fields rows.now.fields ≡ true }
    ensures serve { IfOk result (λ r. ServeRows was.now rows.now (map kept memos.items) (map kept r.0.items)) }
    ensures among { IfOk result (λ r. AreAmong was.now (places_from rows.now 0 (length rows.now.rows)) (map kept r.0.items)) }
    ensures keys { IfOk result (λ r. r.1 ≡ true → map (λ (r : ARow). r.key) was.now.rows ≡ map (λ (r : ARow). r.key) rows.now.rows) }
{
    let mut left = memos;
    let front = rows_stand(fields, was, rows, &mut left);
    if front == was.len() && front == rows.len() {
        return Ok((left, true));
    }
    if left.len() != was.len() {
        return Ok((Vec::new(alloc), false));
    }
    let found = rows_found(alloc, fields, was, rows, front, left)?;
    Ok((found, false))
}

/// What was kept for rows, each where there now is a row of the same key and values, and whether the rows are known to have the same keys, in the same
/// order: then what was kept stays where it is.
///
/// # Errors
///
/// `NoMemory` alone.
pub(crate) fn rows_were(
    alloc: Global,
    was: &Outcome,
    next: &Outcome,
    memos: Vec<PageMemo>,
) -> Result<(Vec<PageMemo>, bool), NoMemory>
    ensures serve { IfOk result (λ r. ServeRows (table_in was.now) (table_in next.now) (map kept memos.items) (map kept r.0.items)) }
    ensures among { IfOk result (λ r. AreAmong (table_in was.now) (places_from (table_in next.now) 0 (length (table_in next.now).rows)) (map kept r.0.items)) }
    ensures keys { IfOk result (λ r. r.1 ≡ true → keys_in was.now ≡ keys_in next.now) }
{
    match (was, next) {
        (Outcome::Good(Value::Rows(was)), Outcome::Good(Value::Rows(rows))) => {
            let fields = same_fields(was, rows);
            let each = rows_kept(alloc, fields, was, rows, memos)?;
            Ok(each)
        }
        _ => Ok((Vec::new(alloc), false)),
    }
}
