// The laws of live pages.
ghost use Rattle.page_laws.specs.LivePages.{LiveLaw, ShownLaw};

use page_ops::one_reading;

/// After each flush that isn't refused each page that lives is, byte for byte, its template evaluated from scratch, whatever the items, and
/// whatever host formulas answer.
pub fn shown_law()
    ensures { ShownLaw }
{}

/// Of a script all of this is said: its pages are shown as they are from scratch, and the operations that are told of a page, read from their
/// lines and replayed on the page before, give the page after, and none is refused. It asks of the host formulas that they make rows of no
/// others, which those that are handed in do (`sig_host::lends_rows`).
pub fn live_law()
    ensures { LiveLaw }
{
    one_reading();
}
