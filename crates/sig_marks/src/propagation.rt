// Marks that are pushed along sets of dependants, with a list whose room was reserved beforehand.
ghost use Rattle.std.specs.Prelude.{◌≡◌, ℕ, ◌+◌, ◌<◌, ◌≤◌, [], ◌∷◌, ◌++◌, length, true, false, is_some, if◌then◌else◌, vec_len, vec_capacity, slice_set};
ghost use Rattle.std.specs.List.{All};
ghost use Rattle.sig_store.specs.Stored.{entry};
ghost use Rattle.sig_marks.specs.Tables.{AreFresh, AreListed, Spreads, dependants_at, marked_at};
ghost use Rattle.sig_marks.specs.Sets.{depends_in, keys_of, marks_of, newly_marked, standing_count, stands_of, unmarked_count, with_marks};

use crate::presence::stands_in;
use crate::readers::Readers;
use sig_store::Store;

/// Whether a signal is marked, as what is gone counts; past the last one none is.
#[inline(always)]
pub(crate) fn is_marked_in(marked: &Store<bool>, id: u64) -> bool
    ensures { result ≡ marked_at (marks_of marked.now.entries) id }
{
    match marked.get(id) {
        Some(mark) => *mark,
        None => id < marked.made(),
    }
}

/// Marks a signal, and tells whether it was marked before. It takes no memory.
#[inline(always)]
pub(crate) fn mark_one(marked: &mut Store<bool>, id: u64) -> bool
    requires { id < length marked.old.entries }
    ensures was { result ≡ marked_at (marks_of marked.old.entries) id }
    ensures marked { marks_of marked.new.entries ≡ slice_set (marks_of marked.old.entries) id true }
    ensures stands { stands_of marked.new.entries ≡ stands_of marked.old.entries }
{
    match marked.replace(id, true) {
        Some(mark) => mark,
        None => true,
    }
}

/// Takes the mark of a signal that stands. It takes no memory.
#[inline(always)]
pub(crate) fn unmark_one(marked: &mut Store<bool>, id: u64)
    ensures marked { marks_of marked.new.entries ≡
        (if is_some (entry marked.old.entries id) then slice_set (marks_of marked.old.entries) id false else marks_of marked.old.entries) }
    ensures stands { stands_of marked.new.entries ≡ stands_of marked.old.entries }
{
    let _before = marked.replace(id, false);
}

/// Takes what is kept of a signal's mark away; it is one less of those that stand, where it did. It takes no memory.
pub(crate) fn drop_mark(marked: &mut Store<bool>, live: &mut usize, id: u64)
    requires { standing_count (stands_of marked.old.entries) ≡ live.old }
    ensures marked { marks_of marked.new.entries ≡ slice_set (marks_of marked.old.entries) id true }
    ensures stands { stands_of marked.new.entries ≡ slice_set (stands_of marked.old.entries) id false }
    ensures count { standing_count (stands_of marked.new.entries) ≡ live.new }
    ensures fewer { live.new ≤ live.old }
{
    if !stands_in(marked, id) {
        return;
    }
    let _mark = marked.remove(id);
    *live -= 1;
}

// Marks what isn't marked yet, and lists it as marked newly. Marks and list are told apart; the room that was reserved is asked for and
// given back, so that more may be marked, and what is listed and what is unmarked are as many together as before, which bounds the work.
fn mark_reader(marked: &mut Store<bool>, fresh: &mut Vec<u64>, reader: u64)
    requires within { reader < length marked.old.entries }
    requires room { vec_len fresh.old + unmarked_count (marks_of marked.old.entries) ≤ vec_capacity fresh.old }
    ensures marked { marks_of marked.new.entries ≡ slice_set (marks_of marked.old.entries) reader true }
    ensures stands { stands_of marked.new.entries ≡ stands_of marked.old.entries }
    ensures fresh { fresh.new.items ≡ fresh.old.items ++ newly_marked (reader ∷ []) (marks_of marked.old.entries) }
    ensures capacity { vec_capacity fresh.old ≤ vec_capacity fresh.new }
    ensures room { vec_len fresh.new + unmarked_count (marks_of marked.new.entries) ≤ vec_capacity fresh.new }
    ensures work { length fresh.new.items + unmarked_count (marks_of marked.new.entries) ≡
        length fresh.old.items + unmarked_count (marks_of marked.old.entries) }
    ensures fewer { unmarked_count (marks_of marked.new.entries) ≤ unmarked_count (marks_of marked.old.entries) }
{
    if mark_one(marked, reader) {
        return;
    }
    fresh.push_reserved(reader);
}

// The same for several. Its clauses are the same too, as what holds after one has to hold for the next.
#[inline(always)]
fn mark_each(readers: &[u64], marked: &mut Store<bool>, fresh: &mut Vec<u64>)
    requires within { All (λ d. d < length marked.old.entries) readers.now }
    requires room { vec_len fresh.old + unmarked_count (marks_of marked.old.entries) ≤ vec_capacity fresh.old }
    ensures marked { marks_of marked.new.entries ≡ with_marks readers.now (marks_of marked.old.entries) }
    ensures stands { stands_of marked.new.entries ≡ stands_of marked.old.entries }
    ensures fresh { fresh.new.items ≡ fresh.old.items ++ newly_marked readers.now (marks_of marked.old.entries) }
    ensures capacity { vec_capacity fresh.old ≤ vec_capacity fresh.new }
    ensures room { vec_len fresh.new + unmarked_count (marks_of marked.new.entries) ≤ vec_capacity fresh.new }
    ensures work { length fresh.new.items + unmarked_count (marks_of marked.new.entries) ≡
        length fresh.old.items + unmarked_count (marks_of marked.old.entries) }
    ensures fewer { unmarked_count (marks_of marked.new.entries) ≤ unmarked_count (marks_of marked.old.entries) }
{
    for reader in readers {
        mark_reader(marked, fresh, *reader);
    }
}

// The dependants of a signal.
fn dependants_in(sets: &Store<Readers>, id: u64) -> &[u64]
    ensures { result.now ≡ dependants_at (keys_of sets.now.entries) id }
{
    match sets.get(id) {
        Some(set) => set.as_slice(),
        None => &[],
    }
}

// The same for the dependants of one signal. It has the same clauses, but asks that all that depends on anything is within the marks.
#[inline(always)]
fn mark_dependants(sets: &Store<Readers>, marked: &mut Store<bool>, fresh: &mut Vec<u64>, id: u64)
    requires within { (m d : ℕ) → depends_in sets.now.entries m d ≡ true → d < length marked.old.entries }
    requires room { vec_len fresh.old + unmarked_count (marks_of marked.old.entries) ≤ vec_capacity fresh.old }
    ensures marked { marks_of marked.new.entries ≡ with_marks (dependants_at (keys_of sets.now.entries) id) (marks_of marked.old.entries) }
    ensures stands { stands_of marked.new.entries ≡ stands_of marked.old.entries }
    ensures fresh { fresh.new.items ≡ fresh.old.items ++ newly_marked (dependants_at (keys_of sets.now.entries) id) (marks_of marked.old.entries) }
    ensures capacity { vec_capacity fresh.old ≤ vec_capacity fresh.new }
    ensures room { vec_len fresh.new + unmarked_count (marks_of marked.new.entries) ≤ vec_capacity fresh.new }
    ensures work { length fresh.new.items + unmarked_count (marks_of marked.new.entries) ≡
        length fresh.old.items + unmarked_count (marks_of marked.old.entries) }
    ensures fewer { unmarked_count (marks_of marked.new.entries) ≤ unmarked_count (marks_of marked.old.entries) }
{
    mark_each(dependants_in(sets, id), marked, fresh)
}

/// Marks the direct and indirect dependants of a signal, as far as they come through unmarked ones, and lists those. It takes no memory.
pub(crate) fn spread(sets: &Store<Readers>, marked: &mut Store<bool>, fresh: &mut Vec<u64>, id: u64)
    requires within { (m d : ℕ) → depends_in sets.now.entries m d ≡ true → d < length marked.old.entries }
    requires room { standing_count (stands_of marked.old.entries) ≤ vec_capacity fresh.old }
    ensures marked { Spreads (keys_of sets.now.entries) (marks_of marked.old.entries) (marks_of marked.new.entries) id }
    ensures stands { stands_of marked.new.entries ≡ stands_of marked.old.entries }
    ensures fresh { AreFresh (keys_of sets.now.entries) (marks_of marked.old.entries) id fresh.new.items }
    ensures listed { AreListed (marks_of marked.old.entries) (marks_of marked.new.entries) fresh.new.items }
    ensures capacity { vec_capacity fresh.old ≤ vec_capacity fresh.new }
{
    fresh.clear();
    mark_dependants(sets, marked, fresh, id);
    let mut place = 0;
    while place < fresh.len() {
        let next = fresh[place];
        mark_dependants(sets, marked, fresh, next);
        place += 1;
    }
}
