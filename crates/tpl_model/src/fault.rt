// Faults that lines meet.
ghost use Rattle.std.specs.Prelude.{◌≡◌, ◌&&◌, ◌||◌};
ghost use Rattle.tpl_model.specs.Shapes.{is_fault};

use sig_base::Outcome;

/// Whether an outcome is a fault.
pub fn is_fault(outcome: &Outcome) -> bool
    ensures { result ≡ is_fault outcome.now }
{
    match outcome {
        Outcome::Good(_) => false,
        Outcome::Bad(_) => true,
    }
}

/// Whether lines end, where they end at a fault or don't, and one was met or wasn't.
pub fn is_over(ends: bool, failed: bool) -> bool
    ensures { result ≡ (ends && failed) }
{
    ends && failed
}

/// Whether lines met a fault, or others did.
pub fn either_failed(failed: bool, later: bool) -> bool
    ensures { result ≡ (failed || later) }
{
    failed || later
}
