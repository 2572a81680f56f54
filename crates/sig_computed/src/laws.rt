// Laws of the steps, for all hosts, signals, memos and names.
ghost use Rattle.sig_computed.specs.StepLaws.{StepsEndLaw, StepsLowerLaw, StepsSettleLaw};
ghost use Rattle.sig_computed.specs.SkipLaws.{BoundBothLaw, PassingLaw};

/// Where the steps are over, what is kept and what has run is what settling defines.
pub fn steps_settle_law()
    ensures { StepsSettleLaw }
{}

/// Each step lowers a measure, whatever host formulas answer and whatever is kept.
pub fn steps_lower_law()
    ensures { StepsLowerLaw }
{}

/// So the steps come to an end.
pub fn steps_end_law()
    ensures { StepsEndLaw }
{}

/// Where what is clean is passed over, all that was asked for is settled as settling defines it, and the steps keep to their bound.
pub fn passing_law()
    ensures { PassingLaw }
{}

/// Names may be settled one list after the other: together they keep to the bound of the one list.
pub fn bound_both_law()
    ensures { BoundBothLaw }
{}
