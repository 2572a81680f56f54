// What is kept of lines in some rows, while it is brought up to date where it stands.
ghost use Rattle.std.specs.Prelude.{◌≡◌, ◌≤◌, ◌++◌, ◌∷◌, [], drop, length, map, take, IfOk, OnOk};
ghost use Rattle.tpl_model.specs.KeptLines.Kept.{kept};
ghost use Rattle.tpl_kept.specs.Rounds.{done_of, was_of};
ghost use Rattle.tpl_kept.specs.Turns.{first_of, later_of};

use sig_base::NoMemory;
use std::alloc::Global;
use std::mem;
use tpl_model::PageMemo;

/// What is kept of lines in some rows, one after the other: what is up to date stands before a place, and what was kept in the other rows from there on.
#[derive(Drop)]
pub(crate) struct Round {
    pub memos: Vec<PageMemo>,
    pub at: usize,
}

impl Round {
    /// Nothing was kept.
    pub fn nothing(alloc: Global) -> Round
        ensures was { was_of result ≡ [] }
        ensures done { done_of result ≡ [] }
    {
        Round {
            memos: Vec::new(alloc),
            at: 0,
        }
    }

    /// This was kept, one row after the other.
    pub fn of(memos: Vec<PageMemo>) -> Round
        ensures was { was_of result ≡ map kept memos.items }
        ensures done { done_of result ≡ [] }
    {
        Round { memos, at: 0 }
    }

    /// This alone was kept.
    ///
    /// # Errors
    ///
    /// `NoMemory` alone.
    pub fn alone(alloc: Global, memo: PageMemo) -> Result<Round, NoMemory>
        ensures was { IfOk result (λ r. was_of r ≡ kept memo ∷ []) }
        ensures done { IfOk result (λ r. done_of r ≡ []) }
    {
        let mut memos = Vec::with_capacity(alloc, 1)?;
        memos.push(memo)?;
        Ok(Round::of(memos))
    }

    /// What was kept in the rows that are left.
    pub fn left(&self) -> &[PageMemo]
        ensures { map kept result.now ≡ was_of self.now }
    {
        if self.at >= self.memos.len() {
            return &[];
        }
        &self.memos[self.at..]
    }

    /// Takes what was kept in the next row, or nothing.
    pub fn take(&mut self) -> PageMemo
        ensures first { kept result ≡ first_of (was_of self.old) }
        ensures later { later_of (was_of self.new) ≡ later_of (was_of self.old) }
        ensures done { done_of self.new ≡ done_of self.old }
    {
        if self.at >= self.memos.len() {
            return PageMemo::Unread;
        }
        mem::replace(&mut self.memos[self.at], PageMemo::Unread)
    }

    /// What was kept in so many of the next rows stays.
    pub fn keep(&mut self, count: usize)
        requires { count ≤ length (was_of self.old) }
        ensures later { was_of self.new ≡ drop count (was_of self.old) }
        ensures done { done_of self.new ≡ done_of self.old ++ take count (was_of self.old) }
    {
        self.at += count;
    }

    /// This is kept in the next row.
    ///
    /// # Errors
    ///
    /// `NoMemory` alone.
    pub fn put(&mut self, memo: PageMemo) -> Result<(), NoMemory>
        ensures later { OnOk result (was_of self.new ≡ later_of (was_of self.old)) }
        ensures done { OnOk result (done_of self.new ≡ done_of self.old ++ kept memo ∷ []) }
    {
        if self.at < self.memos.len() {
            self.memos[self.at] = memo;
            self.at += 1;
            return Ok(());
        }
        self.memos.push(memo)?;
        self.at = self.memos.len();
        Ok(())
    }

    /// What is up to date; what was kept in further rows is left.
    pub fn finish(self) -> Vec<PageMemo>
        ensures { map kept result.items ≡ done_of self }
    {
        let mut memos = self.memos;
        memos.truncate(self.at);
        memos
    }
}
