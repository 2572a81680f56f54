// What became of what is kept of lines.
ghost use Rattle.std.specs.Prelude.{◌≡◌, map, true, IfOk};
ghost use Rattle.tpl_model.specs.KeptLines.Changes as model;
ghost use Rattle.tpl_model.specs.KeptLines.Changes.{chain, changed};

use sig_base::NoMemory;
use std::alloc::Global;

/// What became of what is kept of lines one after the other.
#[derive(Drop)]
pub enum Change {
    /// All of it stays as it was.
    Stays,
    /// It was made anew.
    Made,
    /// The first line was heard again: whether it is the same, since its names have the outcomes of before, or the rows of a loop their keys, in the same
    /// order; what became of what is kept inside it, in order, and of what is kept behind it.
    Over(bool, Vec<Change>, Box<Change>),
    /// So it was, and all behind the first line stays.
    First(bool, Vec<Change>),
    /// The first line has nothing inside it and is the same, and so are so many behind it; and what became of the lines behind these.
    Same(usize, Box<Change>),
}

// A line with nothing inside it is the same, before lines of which this became.
#[tactic(auto, using(crate::proofs::ChangeEquations::changed_same, crate::proofs::ChangeEquations::none_before))]
fn one_same(alloc: Global, later: Change) -> Result<Change, NoMemory>
    ensures { IfOk result (λ c. changed c ≡ model.over true model.nothing (changed later)) }
{
    Ok(Change::Same(0, Box::new(alloc, later)?))
}

// A line with nothing inside it is the same, before lines of which this became: where these begin with lines like it, it is one more of them.
#[tactic(auto, using(crate::proofs::ChangeEquations::changed_same, crate::proofs::ChangeEquations::one_before))]
fn one_more(alloc: Global, later: Change) -> Result<Change, NoMemory>
    ensures { IfOk result (λ c. changed c ≡ model.over true model.nothing (changed later)) }
{
    match later {
        Change::Same(more, behind) => {
            if more < usize::MAX {
                return Ok(Change::Same(more + 1, behind));
            }
            let all = one_same(alloc, Change::Same(more, behind))?;
            Ok(all)
        }
        other => {
            let all = one_same(alloc, other)?;
            Ok(all)
        }
    }
}

// The first line was heard again: whether it is the same, what became of its inside, and of the lines behind it. Where these stay, no box is made.
#[tactic(auto, using(crate::proofs::ChangeEquations::changed_over, crate::proofs::ChangeEquations::changed_first, crate::proofs::ChangeEquations::changed_stays))]
fn first_over(
    alloc: Global,
    same: bool,
    inside: Vec<Change>,
    later: Change,
) -> Result<Change, NoMemory>
    ensures { IfOk result (λ c. changed c ≡ model.over same (chain (map changed inside.items)) (changed later)) }
{
    match later {
        Change::Stays => Ok(Change::First(same, inside)),
        other => {
            let behind = Box::new(alloc, other)?;
            Ok(Change::Over(same, inside, behind))
        }
    }
}

impl Change {
    /// All stays.
    #[tactic(auto, using(crate::proofs::ChangeEquations::changed_stays))]
    pub fn stays() -> Change
        ensures { changed result ≡ model.stays }
    {
        Change::Stays
    }

    /// All was made anew.
    #[tactic(auto, using(crate::proofs::ChangeEquations::changed_made))]
    pub fn made() -> Change
        ensures { changed result ≡ model.made }
    {
        Change::Made
    }

    /// The first line was heard again: whether it is the same, what became of its inside, and of the lines behind it.
    ///
    /// # Errors
    ///
    /// `NoMemory` alone.
    pub fn over(
        alloc: Global,
        same: bool,
        inside: Vec<Change>,
        later: Change,
    ) -> Result<Change, NoMemory>
        ensures { IfOk result (λ c. changed c ≡ model.over same (chain (map changed inside.items)) (changed later)) }
    {
        if same && inside.is_empty() {
            let all = one_more(alloc, later)?;
            return Ok(all);
        }
        let all = first_over(alloc, same, inside, later)?;
        Ok(all)
    }
}
