// What the status of a run comes to.
ghost use Rattle.live_run.specs.Completeness.{CompleteLaw};

/// Where neither source nor sink failed and memory didn't run out, a job ends with Done where it goes by no more bytes than it takes and these are
/// no frames with a fault, with TooLong where they are more, and with BadFrames where they are frames with a fault. This follows from what
/// `run_live` says of its status.
pub fn complete_law()
    ensures { CompleteLaw }
{}
