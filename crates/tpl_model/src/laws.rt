// The laws of what a template shows, and of a page that follows what changed, each the contract of a call that does nothing.
ghost use Rattle.tpl_model.specs.Laws.{AgreeLaw, EvaluatingLaw, MadeLaw, OriginLaw, ReplayLaw, RowsLaw, SameRowsLaw, ScratchLaw, ShapeLaw, SizeLaw};
ghost use Rattle.tpl_model.specs.Needs.Outcomes.{InsideLaw, LastLaw, NextLaw, PlacesLaw};
ghost use Rattle.tpl_model.specs.NextPage.Arrivals.{OrderLaw, SerialLaw};
ghost use Rattle.tpl_model.specs.NextPage.Children.{ChildrenLaw};
ghost use Rattle.tpl_model.specs.NextPage.KeptNodes.{ToldLaw};
ghost use Rattle.tpl_model.specs.NextPage.Lookups.{KeptLaw, ReadsLaw, RemovalsLaw};
ghost use Rattle.tpl_model.specs.NextPage.Marks.{MarksLaw, WholeLaw};
ghost use Rattle.tpl_model.specs.NextPage.Operations.{OperationsLaw};
ghost use Rattle.tpl_model.specs.NextPage.Updates.{UpdateLaw};
ghost use Rattle.tpl_model.specs.PageUpdates.Updates.{MountLaw, NumberLaw, ReadLaw, SourceLaw};

/// What a template shows is a shape: no address stands twice, elements without end tag are empty, and nothing stands too deep.
pub fn shape_law()
    ensures { ShapeLaw }
{}

/// An address that two shapes of one template have stands below the same address and comes from the same line.
pub fn origin_law()
    ensures { OriginLaw }
{}

/// A page that is made from a template, step by step, is a page.
pub fn made_law()
    ensures { MadeLaw }
{}

/// The edits between such a page and the one that is carried to the template's next shape lead from the one tree to the
/// other, and no operation is refused.
pub fn replay_law()
    ensures { ReplayLaw }
{}

/// A page that is mounted has the numbers of a page from scratch: those of document order, from 1.
pub fn scratch_law()
    ensures { ScratchLaw }
{}

/// A line's formula is evaluated as any other that has its row, and asks no host.
pub fn evaluating_law()
    ensures { EvaluatingLaw }
{}

/// What a template shows and reads rests on the outcomes of the names that it reads, and on no others.
pub fn agree_law()
    ensures { AgreeLaw }
{}

/// A template shows at most as many nodes for each of its lines as rows may have.
pub fn size_law()
    ensures { SizeLaw }
{}

/// Where the rows of the names are rows, so are those that the lines come to.
pub fn rows_law()
    ensures { RowsLaw }
{}

/// A formula answers the same on two rows of one key and the same values under the same fields, at whatever places they stand.
pub fn same_rows_law()
    ensures { SameRowsLaw }
{}

/// Whatever finds what differs, in any order, gives the operations and the order of the new numbers.
pub fn read_law()
    ensures { ReadLaw }
{}

/// New nodes get the next numbers in their order, and what stays keeps its numbers.
pub fn number_law()
    ensures { NumberLaw }
{}

/// A mount is the update from the bare page: it makes what is kept, and finds the root alone.
pub fn mount_law()
    ensures { MountLaw }
{}

/// What is kept rests on the outcomes of the names that were read, and on no others.
pub fn source_law()
    ensures { SourceLaw }
{}

/// What a template shows doesn't rest on what its names are called: on the places of its names it shows the same, and reads these in their order.
pub fn places_law()
    ensures { PlacesLaw }
{}

/// What is needed next is one of the names whose outcomes may be known.
pub fn inside_law()
    ensures { InsideLaw }
{}

/// One more name that is known moves on along the same order: the name that is needed next is the next one that the template reads.
pub fn next_law()
    ensures { NextLaw }
{}

/// Where no more is needed, the template shows what it shows on all outcomes, and all that it reads was asked for.
pub fn last_law()
    ensures { LastLaw }
{}

/// What is found by marks on the next page gives the operations between the two pages, and the order of the new numbers.
pub fn marks_law()
    ensures { MarksLaw }
{}

/// All nodes that stand on both pages may be marked.
pub fn whole_law()
    ensures { WholeLaw }
{}

/// What the tree says of a node by its number is what the page says of it by its address.
pub fn reads_law()
    ensures { ReadsLaw }
{}

/// What is removed is read from the tree by the numbers of the nodes that are compared.
pub fn removals_law()
    ensures { RemovalsLaw }
{}

/// The numbers of the nodes of both pages tell what is kept.
pub fn kept_law()
    ensures { KeptLaw }
{}

/// What a kept node says is what the tree has otherwise.
pub fn told_law()
    ensures { ToldLaw }
{}

/// New addresses are on the next page alone, and each comes once.
pub fn order_law()
    ensures { OrderLaw }
{}

/// New nodes that come one after the other are numbered in document order.
pub fn serial_law()
    ensures { SerialLaw }
{}

/// The children of a node on both pages stand once each: those stay that are on the next page, and what comes has new numbers.
pub fn children_law()
    ensures { ChildrenLaw }
{}

/// The operations that are read off by marks are the edits between the two pages, and lead from the one to the other.
pub fn operations_law()
    ensures { OperationsLaw }
{}

/// What is kept of a page's lines on the outcomes of now gives the page that comes next and the operations that lead there.
pub fn update_law()
    ensures { UpdateLaw }
{}
