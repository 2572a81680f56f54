// The law of what is compared, the contract of a call that does nothing.
ghost use Rattle.tpl_drawn.specs.Comparison.{CompareLaw};

/// Marks by what became of lines are of nodes of both pages, and what isn't marked is as it was.
pub fn compare_law()
    ensures { CompareLaw }
{}
