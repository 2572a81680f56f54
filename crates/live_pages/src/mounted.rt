// Templates, and the pages that are mounted from them.

use sig_base::{Name, NodeId, PageId};
use tpl_live::Page;
use tpl_syntax::Template;

/// A template, and the signals for which its names stand, in their order.
pub struct LinkedTemplate {
    pub template: Template,
    pub links: Vec<NodeId>,
}

impl Drop for LinkedTemplate {
    fn drop(self) {
        let LinkedTemplate {
            template: _,
            links: _,
        } = self;
    }
}

/// A page under its name, with its number among all pages that were mounted, and the number of its template.
pub struct Mounted {
    pub name: Name,
    pub number: PageId,
    pub template: u64,
    pub page: Page,
}

impl Drop for Mounted {
    fn drop(self) {
        let Mounted {
            name: _,
            number: _,
            template: _,
            page: _,
        } = self;
    }
}
