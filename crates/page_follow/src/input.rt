// Frames from a source, and what they print to a sink.
ghost use Rattle.std.specs.Prelude.{◌≡◌, ◌≤◌, ◌<◌, ◌+◌, ◌^◌, ◌++◌, false, length, IfErr, IfSome, IsErrOf, OnOk};
ghost use Rattle.std.specs.Io.KnownBytes.{IsAtEnd};
ghost use Rattle.sig_io.specs.Counts.{Rose};
ghost use Rattle.page_follow.specs.Following.{Ended, EndsAt, EndsIn, GaveTooMany, IsFollowed, NoFault, Writes};
ghost use Rattle.page_follow.specs.declared.input.FollowEnd.TheVariants as end;

use crate::follower::FollowFault;
use crate::stream::FrameFollower;
use page_wire::{one_stream, pieces_law};
use sig_base::{Failed, NoMemory};
use sig_io::{Sink, Source, put_all};
use std::alloc::Global;
use thiserror::Error;

/// The most bytes of frames that are followed.
pub const MOST_FRAMES: usize = 67_108_864;

/// Why frames weren't followed to their end.
#[derive(Clone, Copy, Debug, PartialEq, Eq, Error)]
pub enum FollowEnd {
    #[error("reading failed")]
    Read,
    #[error("writing failed")]
    Write,
    #[error("out of memory")]
    Memory,
    #[error("there are more than 67,108,864 bytes of frames")]
    TooLong,
    #[error("a frame is no note's, or its note is refused, or the last frame is cut")]
    BadFrames,
}

impl From<NoMemory> for FollowEnd {
    ghost from_gives = { λ _ e. e ≡ end.Memory };

    fn from(_: NoMemory) -> Self {
        FollowEnd::Memory
    }
}

impl From<Failed> for FollowEnd {
    ghost from_gives = { λ _ e. e ≡ end.Write };

    fn from(_: Failed) -> Self {
        FollowEnd::Write
    }
}

// Follows a piece of the frames, and writes what it prints.
fn follow_piece<K: Sink>(
    alloc: Global,
    frames: &mut FrameFollower,
    piece: &[u8],
    sink: &mut K,
) -> Result<(), FollowEnd>
    requires few { frames.old.decoding.at + (length frames.old.decoding.rest + length piece.now) < 2 ^ 63 }
    requires going { frames.old.decoding.stopped ≡ false }
    ensures writes { OnOk result (Writes frames.old piece.now (K.held sink.old) (K.held sink.new) frames.new) }
    ensures count { OnOk result (frames.new.decoding.at + length frames.new.decoding.rest ≡ frames.old.decoding.at + (length frames.old.decoding.rest + length piece.now)) }
    ensures ends { IfErr result (λ e. EndsAt e frames.old piece.now (K.held sink.old) (K.held sink.new)) }
    ensures write { IsErrOf result FollowEnd.Write → Rose (K.faults sink.old) (K.faults sink.new) }
    ensures later { K.faults sink.old ≤ K.faults sink.new }
{
    let mut out = Vec::new(alloc);
    match frames.feed(piece, &mut out) {
        Ok(()) => {
            put_all(sink, &out)?;
            Ok(())
        }
        Err(FollowFault::Refused) => {
            put_all(sink, &out)?;
            Err(FollowEnd::BadFrames)
        }
        Err(FollowFault::NoMemory) => Err(FollowEnd::Memory),
    }
}

// The first bytes, no more than so many, and those behind them.
fn first_bytes(piece: &[u8], most: usize) -> (&[u8], &[u8])
    ensures whole { piece.now ≡ result.0.now ++ result.1.now }
    ensures few { length result.0.now ≤ most }
    ensures full { 0 < length result.1.now → length result.0.now ≡ most }
{
    piece.split_at(most.min(piece.len()))
}

// Follows as much of a piece of the frames as is followed yet, and writes what it prints. What was written and how far it came are told where all
// is followed; each other ending has a clause with what shows it, the length or the faults of the sink, and that these only rise is told of all.
fn follow_within<K: Sink>(
    alloc: Global,
    frames: &mut FrameFollower,
    piece: &[u8],
    most: usize,
    sink: &mut K,
) -> Result<(), FollowEnd>
    requires few { frames.old.decoding.at + (length frames.old.decoding.rest + length piece.now) < 2 ^ 63 }
    requires going { frames.old.decoding.stopped ≡ false }
    ensures writes { OnOk result (Writes frames.old piece.now (K.held sink.old) (K.held sink.new) frames.new) }
    ensures count { OnOk result (frames.new.decoding.at + length frames.new.decoding.rest ≡ frames.old.decoding.at + (length frames.old.decoding.rest + length piece.now)) }
    ensures few { OnOk result (length piece.now ≤ most) }
    ensures ends { IfErr result (λ e. EndsIn e frames.old piece.now most (K.held sink.old) (K.held sink.new)) }
    ensures long { IsErrOf result FollowEnd.TooLong → most < length piece.now }
    ensures write { IsErrOf result FollowEnd.Write → Rose (K.faults sink.old) (K.faults sink.new) }
    ensures no_read { IsErrOf result FollowEnd.Read → ⊥ }
    ensures later { K.faults sink.old ≤ K.faults sink.new }
{
    let (front, more) = first_bytes(piece, most);
    follow_piece(alloc, frames, front, sink)?;
    if more.len() > 0 {
        return Err(FollowEnd::TooLong);
    }
    Ok(())
}

/// Follows the frames that the source has, and writes the pages that they print to the sink, as the frames come. It keeps no more of the frames than
/// the one that isn't whole yet, and follows at most `MOST_FRAMES` bytes.
///
/// # Errors
///
/// `BadFrames` comes only once a byte came (or their count stands at its last value), and `TooLong` only once more than `MOST_FRAMES`
/// bytes came (or their count stands at its last value); `Read` and `Write` come only where the source or the sink failed in this call (or its count of
/// failures stands at its last value), and `Memory` where it finds no room. Over a source that tells its bytes, `BadFrames` comes only where there is
/// a fault of frames, and all that the notes before it print was written. There is none, and there are more than
/// `MOST_FRAMES` bytes, where `TooLong` comes. There is none, and there are no more, where it ends well. With every other error a front of what
/// a front of the frames prints was written.
pub fn live_follow<S: Source, K: Sink>(
    alloc: Global,
    source: &mut S,
    sink: &mut K,
) -> Result<(), FollowEnd>
    ensures end { OnOk result (IsAtEnd (S.left source.new)) }
    ensures followed { OnOk result (IfSome (S.left source.old) (λ input. IsFollowed input (K.held sink.old) (K.held sink.new))) }
    ensures fine { OnOk result (IfSome (S.left source.old) NoFault) }
    ensures ended { IfErr result (λ e. IfSome (S.left source.old) (λ input. Ended e input (K.held sink.old) (K.held sink.new))) }
    ensures bad { IsErrOf result FollowEnd.BadFrames → Rose (S.given source.old) (S.given source.new) }
    ensures long { IsErrOf result FollowEnd.TooLong → GaveTooMany (S.given source.old) (S.given source.new) }
    ensures read { IsErrOf result FollowEnd.Read → Rose (S.faults source.old) (S.faults source.new) }
    ensures write { IsErrOf result FollowEnd.Write → Rose (K.faults sink.old) (K.faults sink.new) }
{
    one_stream();
    pieces_law();
    let mut frames = FrameFollower::new(alloc)?;
    let mut came = 0;
    let mut buf = [0u8; 8_192];
    loop {
        let count = match source.take(&mut buf) {
            Ok(count) => count,
            Err(Failed) => return Err(FollowEnd::Read),
        };
        if count == 0 {
            break;
        }
        match follow_within(alloc, &mut frames, &buf[..count], MOST_FRAMES - came, sink) {
            Ok(()) => came += count,
            Err(end) => return Err(end),
        }
    }
    if frames.rest() > 0 {
        return Err(FollowEnd::BadFrames);
    }
    Ok(())
}
