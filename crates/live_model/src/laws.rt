// What holds of the pages of the machine.
ghost use Rattle.live_model.specs.Laws.{FlushLaw, PageLaw};

/// A page that is brought up to date has the HTML of what its template shows, whatever it was before.
pub fn page_shows_shape()
    ensures { PageLaw }
{}

/// After a flush that isn't refused each page that lives is, byte for byte, its template evaluated from scratch.
pub fn flush_shows_scratch()
    ensures { FlushLaw }
{}
