// The marks that a search takes which found nothing that must run.
ghost use Rattle.std.specs.Prelude.{◌≡◌, ℕ, ◌<◌, ◌==◌, length, true, false, Some, if◌then◌else◌};
ghost use Rattle.mark_laws.specs.Marked.{without_marks};
ghost use Rattle.sig_marks.specs.Tables.{marked_at, stands_at};
ghost use Rattle.sig_graph.specs.Search.{is_seated, of_holder, search_unmarks, some_seated, stays_marked};
ghost use Rattle.sig_seats.specs.Seats.{holder};

use sig_base::NodeId;
use sig_marks::Marks;
use sig_nodes::{Nodes, computation_at};
use sig_seats::Seats;

// Whether a signal keeps its mark though nothing below it must run: it is being evaluated, or holds `cycle`.
fn stays_marked(nodes: &Nodes, id: NodeId) -> bool
    ensures { result ≡ stays_marked nodes.now.items id }
{
    match computation_at(nodes, id) {
        Some(computation) => computation.is_computing() || computation.holds_cycle(),
        None => false,
    }
}

// Whether who has a seat does; of a free seat nobody.
fn holder_stays(nodes: &Nodes, seats: &Seats, seat: usize) -> bool
    ensures { result ≡ of_holder (stays_marked nodes.now.items) (holder seats.now.holders seat) }
{
    match seats.holder(seat) {
        Some(id) => stays_marked(nodes, id),
        None => false,
    }
}

// Whether one of those who have these seats does.
fn some_stays(nodes: &Nodes, seats: &Seats, reached: &[usize]) -> bool
    ensures { result ≡ some_seated (stays_marked nodes.now.items) reached.now seats.now.holders }
{
    for seat in reached {
        if holder_stays(nodes, seats, *seat) {
            return true;
        }
    }
    false
}

// Takes the mark of who has a seat.
fn unmark_holder(seats: &Seats, marks: &mut Marks, seat: usize)
    requires places { (n : ℕ) → holder seats.now.holders seat ≡ Some n → n < length marks.old.marked }
    requires stands { (n : ℕ) → holder seats.now.holders seat ≡ Some n → stands_at marks.old.stands n ≡ true }
    ensures marks { (n : ℕ) → marked_at marks.new.marked n ≡
        (if of_holder (λ m. m == n) (holder seats.now.holders seat) then false else marked_at marks.old.marked n) }
    ensures size { length marks.new.marked ≡ length marks.old.marked }
    ensures dependants { marks.new.dependants ≡ marks.old.dependants }
    ensures stands { marks.new.stands ≡ marks.old.stands }
{
    if let Some(id) = seats.holder(seat) {
        marks.unmark(id);
    }
}

// Takes the marks of all who have these seats.
fn unmark_all(seats: &Seats, marks: &mut Marks, reached: &[usize])
    requires places { (seat n : ℕ) → holder seats.now.holders seat ≡ Some n → n < length marks.old.marked }
    requires stands { (seat n : ℕ) → holder seats.now.holders seat ≡ Some n → stands_at marks.old.stands n ≡ true }
    ensures marks { (n : ℕ) → marked_at marks.new.marked n ≡ without_marks (marked_at marks.old.marked) (is_seated reached.now seats.now.holders) n }
    ensures size { length marks.new.marked ≡ length marks.old.marked }
    ensures dependants { marks.new.dependants ≡ marks.old.dependants }
    ensures stands { marks.new.stands ≡ marks.old.stands }
{
    for seat in reached {
        unmark_holder(seats, marks, *seat);
    }
}

/// Takes the marks of all whose seats a search came to: of all, or where one of them is being evaluated or holds `cycle`, of none.
pub(crate) fn unmark_reached(nodes: &Nodes, seats: &Seats, marks: &mut Marks, reached: &[usize])
    requires places { (seat n : ℕ) → holder seats.now.holders seat ≡ Some n → n < length marks.old.marked }
    requires stands { (seat n : ℕ) → holder seats.now.holders seat ≡ Some n → stands_at marks.old.stands n ≡ true }
    ensures marks { (n : ℕ) → marked_at marks.new.marked n ≡
        without_marks (marked_at marks.old.marked) (search_unmarks nodes.now.items reached.now seats.now.holders) n }
    ensures size { length marks.new.marked ≡ length marks.old.marked }
    ensures dependants { marks.new.dependants ≡ marks.old.dependants }
    ensures stands { marks.new.stands ≡ marks.old.stands }
{
    if some_stays(nodes, seats, reached) {
        return;
    }
    unmark_all(seats, marks, reached);
}
