// Frames from a source, and the pages that they print to a sink.
ghost use Rattle.live_run.specs.Ends.{FollowEnds};

use crate::Status;
use page_follow::{FollowEnd, live_follow};
use sig_io::{Sink, Source};
use std::alloc::Global;

/// Follows the frames of the source, and writes the pages that they print to the sink. `FollowEnds` says of each status in turn what it means.
pub(crate) fn follow_frames<S: Source, K: Sink>(
    alloc: Global,
    source: &mut S,
    sink: &mut K,
) -> Status
    ensures { FollowEnds (record { left = S.left source.old; given = S.given source.old; faults = S.faults source.old })
        (record { left = S.left source.new; given = S.given source.new; faults = S.faults source.new })
        (record { held = K.held sink.old; faults = K.faults sink.old }) (record { held = K.held sink.new; faults = K.faults sink.new }) result }
{
    match live_follow(alloc, source, sink) {
        Ok(()) => Status::Done,
        Err(FollowEnd::Read) => Status::ReadFault,
        Err(FollowEnd::Write) => Status::WriteFault,
        Err(FollowEnd::Memory) => Status::NoMemory,
        Err(FollowEnd::TooLong) => Status::TooLong,
        Err(FollowEnd::BadFrames) => Status::BadFrames,
    }
}
