// The law of what stands under the numbers of signals.
ghost use Rattle.sig_effect.specs.Kinds.{AllKeepKinds, FlushesKeepKinds};

/// Settling, changes, ends, the runs of effects and what is done to a batch turn no cell into a computed and no computed into a cell, bring
/// nothing back that is gone, and so it is with flushes.
pub fn kinds_law()
    ensures acts { AllKeepKinds }
    ensures flushes { FlushesKeepKinds }
{}
