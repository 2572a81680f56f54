// The host formulas, each with the number of its asks.
ghost use Rattle.std.specs.Prelude.{◌≡◌, ◌+◌, ◌<◌, ◌==◌, ◌&&◌, not, List, ℕ, IfOk, OnOk, OnErr, IsTrue, Option, Some, is_some, option_map, length, map, All};
ghost use Rattle.signal_model.specs.Recipes.{Hosts};
ghost use Rattle.sig_host.specs.Hosts.{AnswersBy, HostPlace, IsCounted, Meaning, asked_more_at, count_at, count_there, dropped_at, hosts_of, is_there, last_ask, unasked_place};

use crate::HostFormula;
use sig_base::{Known, NoMemory, Step};
use std::alloc::Global;

/// What is known of a shelf of host formulas.
///
/// What the formulas answer is said under all meanings of the places, `(hosts : Hosts) → answers hosts
/// old → ..`, and only in an `ensures`: no type and no `requires` keeps a fact of a boxed formula.
pub trait Lent {
    /// Each formula that is there answers as its place does.
    ghost answers: { Hosts → Self → Type 0 };

    /// The count beside each formula is how often it has answered.
    ghost counted: { Self → Type 0 };

    /// Whether the formula of each place is there, and how often it was asked, before it was dropped too.
    ghost asked: { Self → List HostPlace };
}

// What is known of one place.
trait LentPlace {
    /// What the formula answers that is there.
    ghost meaning: { Self → Option Meaning };

    /// How often the formula has answered that is there.
    ghost answered: { Self → Option ℕ };

    /// Whether a formula is there, and the count beside it.
    ghost asked_so: { Self → HostPlace };
}

// A place, which keeps its formula until that is dropped.
struct Place {
    host: Option<Box<dyn HostFormula>>,
    count: u128,
}

impl Drop for Place {
    fn drop(self) {
        let Place { host: _, count: _ } = self;
    }
}

/// The host formulas by their places, which are those of the list that was handed in.
pub struct Shelf {
    places: Vec<Place>,
}

impl Drop for Shelf {
    fn drop(self) {
        let Shelf { places: _ } = self;
    }
}

impl LentPlace for Place {
    ghost meaning = { λ p. option_map (λ h. (HostFormula-box h).step_of h.value) p.host };

    ghost answered = { λ p. option_map (λ h. (HostFormula-box h).asks h.value) p.host };

    ghost asked_so = { λ p. record { there = is_some p.host; asks = p.count } };
}

impl Lent for Shelf {
    ghost answers = { λ hosts s. AnswersBy hosts
        (map (λ p. option_map (λ h. (HostFormula-box h).step_of h.value) p.host) s.places.items) };

    ghost counted = { λ s. IsCounted
        (map (λ p. option_map (λ h. (HostFormula-box h).asks h.value) p.host) s.places.items)
        (map (λ p. record { there = is_some p.host; asks = p.count }) s.places.items) };

    ghost asked = { λ s. map (λ p. record { there = is_some p.host; asks = p.count }) s.places.items };
}

impl Shelf {
    /// A shelf of host formulas that were never asked. Their places are those of the list.
    ///
    /// # Errors
    ///
    /// `NoMemory` where memory ran out; the formulas are dropped.
    pub fn new(alloc: Global, hosts: Vec<Box<dyn HostFormula>>) -> Result<Shelf, NoMemory>
        requires { All (λ h. asks h ≡ 0) hosts.items }
        ensures answers { IfOk result (λ shelf.
            ⟦<Shelf as Lent>⟧.answers (hosts_of (map (λ h. step_of h) hosts.items)) shelf) }
        ensures counted { IfOk result ⟦<Shelf as Lent>⟧.counted }
        ensures asked { IfOk result (λ shelf. ⟦<Shelf as Lent>⟧.asked shelf ≡ map (λ _. unasked_place) hosts.items) }
    {
        let places = places_of(alloc, hosts)?;
        Ok(Shelf { places })
    }

    /// How many formulas were handed in, the dropped ones among them.
    pub fn len(&self) -> usize
        ensures { result ≡ length (⟦<Shelf as Lent>⟧.asked self.now) }
    {
        self.places.len()
    }

    /// Whether a formula is there: one was handed in for that place, and it wasn't dropped.
    pub fn is_there(&self, place: usize) -> bool
        ensures { result ≡ is_there (⟦<Shelf as Lent>⟧.asked self.now) place }
    {
        match self.places.get(place) {
            Some(found) => found.host.is_some(),
            None => false,
        }
    }

    /// Asks the formula of a place that is there, with the values known so far, and counts its answer. It
    /// asks of its caller that the count isn't at its last value. That the formula is there, that its count is right, and that there is
    /// room for one more are asked for apart; what the shelf answers, its counts and which formulas are there are told of both endings,
    /// and the asks of each by itself.
    ///
    /// # Errors
    ///
    /// `NoMemory` where memory ran out: then nothing is counted, and the formula may be asked again.
    pub fn ask(&mut self, alloc: Global, place: usize, known: &[Known]) -> Result<Step, NoMemory>
        requires counted { ⟦<Shelf as Lent>⟧.counted self.old }
        requires there { IsTrue (is_there (⟦<Shelf as Lent>⟧.asked self.old) place) }
        requires room { count_at (⟦<Shelf as Lent>⟧.asked self.old) place < last_ask }
        ensures answer { (hosts : Hosts) → ⟦<Shelf as Lent>⟧.answers hosts self.old →
            IfOk result (λ s. s ≡ hosts place known.now) }
        ensures answers { (hosts : Hosts) → ⟦<Shelf as Lent>⟧.answers hosts self.old →
            ⟦<Shelf as Lent>⟧.answers hosts self.new }
        ensures counted { ⟦<Shelf as Lent>⟧.counted self.new }
        ensures asked { OnOk result
            (⟦<Shelf as Lent>⟧.asked self.new ≡ asked_more_at (⟦<Shelf as Lent>⟧.asked self.old) place 1) }
        ensures unasked { OnErr result (⟦<Shelf as Lent>⟧.asked self.new ≡ ⟦<Shelf as Lent>⟧.asked self.old) }
        ensures there { (other : ℕ) → is_there (⟦<Shelf as Lent>⟧.asked self.new) other
            ≡ is_there (⟦<Shelf as Lent>⟧.asked self.old) other }
    {
        ask_at(alloc, &mut self.places[place], known)
    }

    /// Drops the formula of a place that is there, and gives the number of its asks, which is kept. It takes
    /// no memory. No formula is there ever again.
    pub fn drop_host(&mut self, place: usize) -> u128
        requires counted { ⟦<Shelf as Lent>⟧.counted self.old }
        requires there { IsTrue (is_there (⟦<Shelf as Lent>⟧.asked self.old) place) }
        ensures asks { result ≡ count_at (⟦<Shelf as Lent>⟧.asked self.old) place }
        ensures answers { (hosts : Hosts) → ⟦<Shelf as Lent>⟧.answers hosts self.old →
            ⟦<Shelf as Lent>⟧.answers hosts self.new }
        ensures counted { ⟦<Shelf as Lent>⟧.counted self.new }
        ensures asked { ⟦<Shelf as Lent>⟧.asked self.new ≡ dropped_at (⟦<Shelf as Lent>⟧.asked self.old) place }
        ensures there { (other : ℕ) → is_there (⟦<Shelf as Lent>⟧.asked self.new) other
            ≡ (is_there (⟦<Shelf as Lent>⟧.asked self.old) other && not (other == place)) }
    {
        let found = &mut self.places[place];
        found.host = None;
        found.count
    }
}

// A place for each formula, in their order.
fn places_of(alloc: Global, hosts: Vec<Box<dyn HostFormula>>) -> Result<Vec<Place>, NoMemory>
    requires { All (λ h. asks h ≡ 0) hosts.items }
    ensures meanings { IfOk result (λ places.
        map ⟦<Place as LentPlace>⟧.meaning places.items ≡ map (λ h. Some (step_of h)) hosts.items) }
    ensures answered { IfOk result (λ places.
        map ⟦<Place as LentPlace>⟧.answered places.items ≡ map (λ _. Some 0) hosts.items) }
    ensures asked { IfOk result (λ places.
        map ⟦<Place as LentPlace>⟧.asked_so places.items ≡ map (λ _. unasked_place) hosts.items) }
{
    let mut places = Vec::with_capacity(alloc, hosts.len())?;
    for lent in hosts {
        places.push(new_place(lent))?;
    }
    Ok(places)
}

// A place with a formula that was never asked.
fn new_place(lent: Box<dyn HostFormula>) -> Place
    requires { asks lent ≡ 0 }
    ensures meaning { ⟦<Place as LentPlace>⟧.meaning result ≡ Some (step_of lent) }
    ensures answered { ⟦<Place as LentPlace>⟧.answered result ≡ Some 0 }
    ensures asked { ⟦<Place as LentPlace>⟧.asked_so result ≡ unasked_place }
{
    Place {
        host: Some(lent),
        count: 0,
    }
}

// Asks the formula that is there, and counts that it has answered. Its clauses are those of `ask` for one place: its meaning, its count
// and that it is there are told of both endings, and its asks of each by itself.
fn ask_at(alloc: Global, place: &mut Place, known: &[Known]) -> Result<Step, NoMemory>
    requires counted { ⟦<Place as LentPlace>⟧.answered place.old ≡ count_there (⟦<Place as LentPlace>⟧.asked_so place.old) }
    requires there { IsTrue ((⟦<Place as LentPlace>⟧.asked_so place.old).there) }
    requires room { (⟦<Place as LentPlace>⟧.asked_so place.old).asks < last_ask }
    ensures answer { IfOk result (λ s.
        option_map (λ f. f known.now) (⟦<Place as LentPlace>⟧.meaning place.old) ≡ Some s) }
    ensures same { ⟦<Place as LentPlace>⟧.meaning place.new ≡ ⟦<Place as LentPlace>⟧.meaning place.old }
    ensures counted { ⟦<Place as LentPlace>⟧.answered place.new ≡ count_there (⟦<Place as LentPlace>⟧.asked_so place.new) }
    ensures asked { OnOk result ((⟦<Place as LentPlace>⟧.asked_so place.new).asks
        ≡ (⟦<Place as LentPlace>⟧.asked_so place.old).asks + 1) }
    ensures unasked { OnErr result
        (⟦<Place as LentPlace>⟧.asked_so place.new ≡ ⟦<Place as LentPlace>⟧.asked_so place.old) }
    ensures there { (⟦<Place as LentPlace>⟧.asked_so place.new).there
        ≡ (⟦<Place as LentPlace>⟧.asked_so place.old).there }
{
    match &mut place.host {
        Some(host) => {
            let step = answer_of(alloc, host, known)?;
            place.count += 1;
            Ok(step)
        }
        None => unreachable!(),
    }
}

// The answer of a formula, with what it says of itself.
fn answer_of(
    alloc: Global,
    host: &mut Box<dyn HostFormula>,
    known: &[Known],
) -> Result<Step, NoMemory>
    requires { asks host.old < last_ask }
    ensures answer { IfOk result (λ s. s ≡ step_of host.old known.now) }
    ensures same { step_of host.new ≡ step_of host.old }
    ensures counted { OnOk result (asks host.new ≡ asks host.old + 1) }
    ensures uncounted { OnErr result (asks host.new ≡ asks host.old) }
{
    host.step(alloc, known)
}
