// Laws of worlds at rest, and of turns and flushes, each the contract of a call that does nothing.
ghost use Rattle.effect_model.specs.Worlds.{Environment};
ghost use Rattle.effect_tables.specs.Roots.{AllRest, CommandsRest, FlushRests, LastRests, TurnRests};
ghost use Rattle.effect_tables.specs.Turned.{FlushesByTurns};
ghost use Rattle.effect_tables.specs.Visits.{TurnsByVisits};
ghost use Rattle.std.specs.Prelude.{ℕ, List};

/// Whatever is done, it does the same to a world at rest as to the world itself: it rests neither on what was told before nor on what
/// stands at the top and can't own, as long as nothing stands under that.
pub fn resting_law()
    ensures acts { AllRest }
    ensures turns { (env : Environment) → TurnRests env }
    ensures looks { (env : Environment) (ids : List ℕ) → LastRests env ids }
    ensures flushes { (env : Environment) → FlushRests env }
    ensures commands { CommandsRest }
{}

/// A turn visits the effects that live at its start, in order: each that still lives is looked at, and runs where it is due.
pub fn visiting_law()
    ensures turns { TurnsByVisits }
    ensures flushes { FlushesByTurns }
{}
