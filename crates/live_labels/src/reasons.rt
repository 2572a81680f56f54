// Why a computed ran.
ghost use Rattle.std.specs.Prelude.{◌≡◌, ◌++◌, ◌∷◌, [], IfOk};
ghost use Rattle.live_entries.specs.declared.entry.Entry.TheVariants as entry;
ghost use Rattle.live_model.specs.Journals.{link_entries, name_next, reason_of};

use crate::names::name_at;
use live_entries::{Entry, Reason};
use sig_base::{Name, NoMemory};
use std::alloc::Global;
use why_model::{Cause, Link};

// The cause of a run, with names for numbers.
fn reason_of(alloc: Global, names: &[Name], cause: Cause) -> Result<Reason, NoMemory>
    ensures { IfOk result (λ r. r ≡ reason_of names.now cause) }
{
    match cause {
        Cause::First => Ok(Reason::First),
        Cause::Cycle => Ok(Reason::Cycle),
        Cause::Rewired(fact) => Ok(Reason::Rewired(fact)),
        Cause::Changed(id, fact) => {
            let name = name_at(alloc, names, id.number())?;
            Ok(Reason::Changed(name, fact))
        }
        Cause::Evaluating => Ok(Reason::Evaluating),
    }
}

// The name of the computed whose run is the link behind one with this cause.
fn name_next(alloc: Global, names: &[Name], name: &Name, cause: Cause) -> Result<Name, NoMemory>
    ensures { IfOk result (λ n. n ≡ name_next names.now name.now cause) }
{
    match cause {
        Cause::Changed(id, _) => {
            let next = name_at(alloc, names, id.number())?;
            Ok(next)
        }
        _ => {
            let same = name.copy()?;
            Ok(same)
        }
    }
}

// Tells a link, and gives the name of the next one.
fn tell_link(
    told: &mut Vec<Entry>,
    names: &[Name],
    name: &Name,
    link: &Link,
) -> Result<Name, NoMemory>
    ensures told { IfOk result (λ n. told.new.items ≡ told.old.items ++ entry.Why name.now link.now.run (reason_of names.now link.now.cause) ∷ []) }
    ensures next { IfOk result (λ n. n ≡ name_next names.now name.now link.now.cause) }
{
    let alloc = *told.allocator();
    let reason = reason_of(alloc, names, link.cause)?;
    told.push(Entry::Why(name.copy()?, link.run, reason))?;
    let next = name_next(alloc, names, name, link.cause)?;
    Ok(next)
}

/// Tells the links of the chain of a computed.
///
/// # Errors
///
/// `NoMemory` where memory ran out.
pub fn tell_why(
    alloc: Global,
    names: &[Name],
    name: Name,
    links: &[Link],
) -> Result<Vec<Entry>, NoMemory>
    ensures { IfOk result (λ es. es.items ≡ link_entries names.now name links.now) }
{
    let mut told = Vec::new(alloc);
    let mut name = name;
    for link in links {
        name = tell_link(&mut told, names, &name, link)?;
    }
    Ok(told)
}
