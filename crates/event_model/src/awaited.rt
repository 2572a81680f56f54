// What handlers wait for.

use sig_base::{PlaceId, Text};

/// What a handler waits for: an event at the nodes that come from a line of a template, on each page of that template. Lines are counted
/// from 1.
pub struct Awaited {
    pub template: PlaceId,
    pub line: usize,
    pub event: Text,
}

impl Drop for Awaited {
    fn drop(self) {
        let Awaited {
            template: _,
            line: _,
            event: _,
        } = self;
    }
}
