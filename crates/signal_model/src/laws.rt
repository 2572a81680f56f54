// Laws over the definitions, for all hosts, signals, names and paths.
ghost use Rattle.signal_model.specs.Laws.{AskedBySteps, CycleLaw, FormulaLaw, OrderLaw, PathLaw, ValueByCases, VisitByCases};
ghost use Rattle.signal_model.specs.Laws.{BelowLaw, MarkLaw, SearchLaw};

/// A recipe is asked as far as its answers say. A formula and a host formula of any meaning end within their slots.
pub fn asked_by_steps()
    ensures { AskedBySteps }
{}

/// A value is given by its four cases.
pub fn value_by_cases()
    ensures { ValueByCases }
{}

/// Along a path of reads a value is that with no path.
pub fn path_law()
    ensures { PathLaw }
{}

/// What stands on a cycle of reads, or leads to one, has the fault `cycle`, by whatever path it is read.
pub fn cycle_law()
    ensures { CycleLaw }
{}

/// A visit is given by its cases: first what the computed reads, and then itself.
pub fn visit_by_cases()
    ensures { VisitByCases }
{}

/// The order of evaluation names each computed once.
pub fn order_law()
    ensures { OrderLaw }
{}

/// A formula whose slots have names asks for no slot outside of them, and for none that is known.
pub fn formula_law()
    ensures { FormulaLaw }
{}

/// A search below, along kept sources, finds nothing more in more steps than there are computeds.
pub fn search_law()
    ensures { SearchLaw }
{}

/// It answers yes exactly where a name that passes its test is kept below.
pub fn below_law()
    ensures { BelowLaw }
{}

/// Each computed has the mark that is found, and no other: it is `Checked` exactly where it needn't run and one that must is below.
pub fn mark_law()
    ensures { MarkLaw }
{}
