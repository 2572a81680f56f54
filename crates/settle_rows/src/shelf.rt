// Formulas and a rule that are handed in: asked, counted and dropped.
ghost use Rattle.std.specs.Prelude.{◌≡◌, ◌<◌, ◌∷◌, [], IfOk, IsTrue, OnOk};
ghost use Rattle.sig_host.specs.Hosts.{asked_more_at, count_at, is_there, last_ask, unasked_place};

use crate::hosts::{Again, First};
use sig_base::{Known, NoMemory, Step, Text, Value, alike};
use sig_host::{EqualsRule, HostFormula, Lent, Shelf};
use std::alloc::Global;
use std::test::Fail;

// A shelf of two formulas that were never asked.
fn shelf_of(
    alloc: Global,
    first: Box<dyn HostFormula>,
    second: Box<dyn HostFormula>,
) -> Result<Shelf, NoMemory>
    requires first { asks first ≡ 0 }
    requires second { asks second ≡ 0 }
    ensures counted { IfOk result ⟦<Shelf as Lent>⟧.counted }
    ensures asked { IfOk result (λ shelf. ⟦<Shelf as Lent>⟧.asked shelf ≡ unasked_place ∷ unasked_place ∷ []) }
{
    let mut hosts = Vec::new(alloc);
    hosts.push(first)?;
    hosts.push(second)?;
    Shelf::new(alloc, hosts)
}

// What a formula is to answer.
#[derive(Clone, Copy)]
enum Wanted {
    Reads(u32),
    Gives(i64),
}

// Whether a step is the one that is wanted.
fn is_wanted(step: &Step, wanted: Wanted) -> bool {
    match (step, wanted) {
        (Step::Read(own), Wanted::Reads(slot)) => *own == slot,
        (Step::Done(Value::Int(own)), Wanted::Gives(number)) => *own == number,
        _ => false,
    }
}

// Whether the formula of a place answers so to no values.
fn asks_for(
    alloc: Global,
    shelf: &mut Shelf,
    place: usize,
    wanted: Wanted,
) -> Result<bool, NoMemory>
    requires counted { ⟦<Shelf as Lent>⟧.counted shelf.old }
    requires there { IsTrue (is_there (⟦<Shelf as Lent>⟧.asked shelf.old) place) }
    requires room { count_at (⟦<Shelf as Lent>⟧.asked shelf.old) place < last_ask }
    ensures counted { OnOk result (⟦<Shelf as Lent>⟧.counted shelf.new) }
    ensures asked { OnOk result (⟦<Shelf as Lent>⟧.asked shelf.new ≡ asked_more_at (⟦<Shelf as Lent>⟧.asked shelf.old) place 1) }
{
    let step = shelf.ask(alloc, place, &[])?;
    Ok(is_wanted(&step, wanted))
}

// The number 7 in slot 0.
fn seven(alloc: Global) -> Result<Vec<Known>, NoMemory> {
    let mut known = Vec::new(alloc);
    known.push(Known {
        slot: 0,
        value: Value::Int(7),
    })?;
    Ok(known)
}

// Whether the formula of a place answers so to 7 in slot 0.
fn answers(alloc: Global, shelf: &mut Shelf, place: usize, wanted: Wanted) -> Result<bool, NoMemory>
    requires counted { ⟦<Shelf as Lent>⟧.counted shelf.old }
    requires there { IsTrue (is_there (⟦<Shelf as Lent>⟧.asked shelf.old) place) }
    requires room { count_at (⟦<Shelf as Lent>⟧.asked shelf.old) place < last_ask }
    ensures counted { OnOk result (⟦<Shelf as Lent>⟧.counted shelf.new) }
    ensures asked { OnOk result (⟦<Shelf as Lent>⟧.asked shelf.new ≡ asked_more_at (⟦<Shelf as Lent>⟧.asked shelf.old) place 1) }
{
    let known = seven(alloc)?;
    let step = shelf.ask(alloc, place, &known)?;
    Ok(is_wanted(&step, wanted))
}

// Whether both formulas answer as they are to.
fn both_answer(alloc: Global, shelf: &mut Shelf) -> Result<bool, NoMemory>
    requires counted { ⟦<Shelf as Lent>⟧.counted shelf.old }
    requires asked { ⟦<Shelf as Lent>⟧.asked shelf.old ≡ unasked_place ∷ unasked_place ∷ [] }
    ensures counted { OnOk result (⟦<Shelf as Lent>⟧.counted shelf.new) }
    ensures asked { OnOk result (⟦<Shelf as Lent>⟧.asked shelf.new
        ≡ asked_more_at (asked_more_at (unasked_place ∷ unasked_place ∷ []) 0 2) 1 3) }
{
    let first = asks_for(alloc, shelf, 0, Wanted::Reads(0))?;
    let second = asks_for(alloc, shelf, 1, Wanted::Reads(0))?;
    let third = answers(alloc, shelf, 0, Wanted::Gives(7))?;
    let fourth = answers(alloc, shelf, 1, Wanted::Reads(0))?;
    let fifth = answers(alloc, shelf, 1, Wanted::Reads(0))?;
    Ok(first && second && third && fourth && fifth)
}

#[test]
fn asks_formulas(rt: HostRuntime) -> Result<(), Fail> {
    let alloc = rt.alloc();
    let first = Box::new(alloc, First::new())?;
    let again = Box::new(alloc, Again::new(0))?;
    let mut shelf = shelf_of(alloc, first, again)?;
    assert!(rt; shelf.len() == 2);
    assert!(rt; both_answer(alloc, &mut shelf)?);
    assert!(rt; shelf.drop_host(0) == 2);
    assert!(rt; !shelf.is_there(0));
    assert!(rt; shelf.is_there(1));
    assert!(rt; !shelf.is_there(2));
    assert!(rt; shelf.drop_host(1) == 3);
    assert!(rt; shelf.len() == 2);
    Ok(())
}

// Whether two numbers count as equal.
fn equals(rule: &EqualsRule, a: i64, b: i64) -> bool {
    rule.holds(&Value::Int(a), &Value::Int(b))
}

// Whether two texts count as equal.
fn texts_equal(alloc: Global, rule: &EqualsRule, a: &str, b: &str) -> Result<bool, Fail> {
    let a = Text::new(alloc, a)?;
    let b = Text::new(alloc, b)?;
    Ok(rule.holds(&Value::Text(a), &Value::Text(b)))
}

#[test]
fn compares_by_slack(rt: HostRuntime) -> Result<(), Fail> {
    let alloc = rt.alloc();
    let rule = EqualsRule {
        slack: 5,
        call: Box::new(alloc, |a: &Value, b: &Value| alike(5, a, b))?,
    };
    assert!(rt; equals(&rule, 10, 15));
    assert!(rt; equals(&rule, 10, 5));
    assert!(rt; !equals(&rule, 10, 16));
    assert!(rt; !equals(&rule, i64::MIN, i64::MAX));
    assert!(rt; rule.holds(&Value::Bool(true), &Value::Bool(true)));
    assert!(rt; !rule.holds(&Value::Bool(true), &Value::Int(1)));
    assert!(rt; texts_equal(alloc, &rule, "a", "a")?);
    assert!(rt; !texts_equal(alloc, &rule, "a", "b")?);
    Ok(())
}
