// A source and a sink in memory, which tell their bytes and fail at stated calls.
ghost use Rattle.std.specs.Prelude.{◌≡◌, ◌≤◌, ◌<◌, ◌||◌, ◌-◌, Some, take, drop, length, [], min, IfOk, MatchResult, is_err};
ghost use Rattle.std.specs.Vec.{vec_len, vec_capacity};
ghost use Rattle.std.specs.Io.{ReadsAtMost, WritesAtMost};
ghost use Rattle.std.specs.Io.KnownBytes.{ReadConsumes, WriteAppends};
ghost use Rattle.sig_io.specs.Counts.{Gives, HasCause};
ghost use Rattle.sig_io.specs.MemoryStates.{SinkState, SourceState, after_failed_put, after_failed_take, after_give, after_put, give_count, is_full, is_stated, take_count};

use crate::{Sink, Source};
use sig_base::{Failed, NoMemory};
use std::alloc::Global;
use std::marker::Model;

/// Gives its bytes from the front, at most `most` of them at a call, and fails at the calls that
/// `fails` names, counted from 1.
#[derive(Drop)]
pub struct MemSource {
    bytes: Vec<u8>,
    most: usize,
    fails: Vec<u64>,
    at: usize,
    calls: u64,
    given: u64,
    faults: u64,
}

impl Model for MemSource {
    ghost Value = { SourceState };

    ghost view = { λ s. record { left = drop s.at s.bytes.items; most = s.most; fails = s.fails.items; calls = s.calls; given = s.given; faults = s.faults } };

    ghost invariant = { λ s. (s.at ≤ vec_len s.bytes) × (0 < s.most) };
}

impl MemSource {
    /// A source of all these bytes, at its first call.
    pub fn new(bytes: Vec<u8>, most: usize, fails: Vec<u64>) -> MemSource
        requires { 0 < most }
        ensures { result ≡ record { left = bytes.items; most = most; fails = fails.items; calls = 0; given = 0; faults = 0 } }
    {
        MemSource {
            bytes,
            most,
            fails,
            at: 0,
            calls: 0,
            given: 0,
            faults: 0,
        }
    }
}

// Copies at most `most` bytes, as many as both have room for.
fn copy_front(from: &[u8], to: &mut [u8], most: usize) -> usize
    requires { 0 < most }
    ensures count { result ≡ min (min (length from.now) (length to.new)) most }
    ensures within { result ≤ length from.now }
    ensures bound { result ≤ length to.new }
    ensures bytes { take result to.new ≡ take result from.now }
    ensures some { result ≡ 0 → 0 < length to.new → length from.now ≡ 0 }
{
    let count = from.len().min(to.len()).min(most);
    to[..count].copy_from_slice(&from[..count]);
    count
}

impl Source for MemSource {
    ghost left = { λ s. Some s.left };

    ghost given = { λ s. s.given };

    ghost faults = { λ s. s.faults };

    fn take(&mut self, buf: &mut [u8]) -> Result<usize, Failed>
        ensures bound { ReadsAtMost result buf.new }
        ensures bytes { ReadConsumes (Some self.old.left) (Some self.new.left) result buf.new }
        ensures count { Gives self.old.given self.new.given result }
        ensures cause { HasCause self.old.faults self.new.faults result }
        // It fails exactly at the stated calls, and otherwise gives as much as it may.
        ensures stated { is_err result ≡ is_stated self.old.fails self.old.calls }
        ensures exact { IfOk result (λ n. n ≡ give_count self.old (length buf.new)) }
        ensures after { MatchResult result (λ n. self.new ≡ after_give self.old n) (λ _. self.new ≡ after_failed_take self.old) }
    {
        self.calls = self.calls.saturating_add(1);
        if self.fails.contains(&self.calls) {
            self.faults = self.faults.saturating_add(1);
            return Err(Failed);
        }
        let count = copy_front(&self.bytes[self.at..], buf, self.most);
        self.at += count;
        self.given = self.given.saturating_add(count as u64);
        Ok(count)
    }
}

/// Takes at most `most` bytes at a call and `room` in all, and fails at the calls that `fails` names,
/// counted from 1, and where it is full.
#[derive(Drop)]
pub struct MemSink {
    bytes: Vec<u8>,
    room: usize,
    most: usize,
    fails: Vec<u64>,
    calls: u64,
    faults: u64,
}

impl Model for MemSink {
    ghost Value = { SinkState };

    ghost view = { λ s. record { held = s.bytes.items; room = s.room; most = s.most; fails = s.fails.items; calls = s.calls; faults = s.faults } };

    ghost invariant = { λ s. (vec_len s.bytes ≤ s.room) × ((s.room ≤ vec_capacity s.bytes) × (0 < s.most)) };
}

impl MemSink {
    /// An empty sink, at its first call. Its room is taken here, so that no call runs out of memory.
    pub fn new(
        alloc: Global,
        room: usize,
        most: usize,
        fails: Vec<u64>,
    ) -> Result<MemSink, NoMemory>
        requires { 0 < most }
        ensures { IfOk result (λ sink. sink ≡ record { held = []; room = room; most = most; fails = fails.items; calls = 0; faults = 0 }) }
    {
        Ok(MemSink {
            bytes: Vec::with_capacity(alloc, room)?,
            room,
            most,
            fails,
            calls: 0,
            faults: 0,
        })
    }

    /// The bytes taken so far.
    pub fn held(&self) -> &[u8]
        ensures { result.now ≡ self.now.held }
    {
        &self.bytes
    }
}

impl Sink for MemSink {
    ghost held = { λ s. Some s.held };

    ghost faults = { λ s. s.faults };

    fn put(&mut self, piece: &[u8]) -> Result<usize, Failed>
        ensures bound { WritesAtMost result piece.now }
        ensures some { IfOk result (λ n. 0 < length piece.now → 0 < n) }
        ensures bytes { WriteAppends (Some self.old.held) (Some self.new.held) result piece.now }
        ensures cause { HasCause self.old.faults self.new.faults result }
        // It fails exactly at the stated calls and where it is full, and otherwise takes as much as it may.
        ensures stated { is_err result ≡ (is_full self.old (length piece.now) || is_stated self.old.fails self.old.calls) }
        ensures exact { IfOk result (λ n. n ≡ take_count self.old (length piece.now)) }
        ensures after { MatchResult result (λ n. self.new ≡ after_put self.old piece.now n) (λ _. self.new ≡ after_failed_put self.old) }
    {
        self.calls = self.calls.saturating_add(1);
        let space = self.room - self.bytes.len();
        let full = !piece.is_empty() && space == 0;
        if full || self.fails.contains(&self.calls) {
            self.faults = self.faults.saturating_add(1);
            return Err(Failed);
        }
        let count = piece.len().min(self.most).min(space);
        match self.bytes.extend_from_slice(&piece[..count]) {
            Ok(()) => Ok(count),
            Err(_) => unreachable!(),
        }
    }
}
