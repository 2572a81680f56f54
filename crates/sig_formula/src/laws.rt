// What holds of every answer.
ghost use Rattle.sig_formula.specs.Laws.{AsksAskable, FormulaAsks, RowsAside};

/// A formula asks only for slots that aren't known, and only for slots of its own.
pub fn formulas_ask_own_unknown_slots()
    ensures tracking { FormulaAsks }
    ensures plain { AsksAskable }
{}

/// A formula that has no `it` outside of the second parts of `sum` and `keep` answers the same whatever row there is, and where there is none.
pub fn rows_are_asked_by_it_alone()
    ensures { RowsAside }
{}
