// Laws over the definitions.
ghost use Rattle.std.specs.Prelude.{◌≡◌};
ghost use Rattle.effect_model.specs.Runs.{flush, flush_within};
ghost use Rattle.effect_model.specs.Worlds.{Environment, World};

/// A flush makes at most 100 turns that run an effect.
pub fn flush_by_turns()
    ensures { (env : Environment) (w : World) → flush env w ≡ flush_within 100 env w }
{}
