// Notes of pages.

use page_ops::Op;
use sig_base::Name;

/// What is told of the page of a name.
pub enum Note {
    /// It is there, without nodes below its root.
    Mount(Name),
    /// An operation on it.
    Op(Name, Op),
    /// It is as it shall be seen.
    Ready(Name),
    /// It is gone.
    Gone(Name),
}

impl Drop for Note {
    fn drop(self) {
        match self {
            Note::Mount(_) => {}
            Note::Op(_, _) => {}
            Note::Ready(_) => {}
            Note::Gone(_) => {}
        }
    }
}
