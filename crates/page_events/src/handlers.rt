// The handlers of a script.
ghost use Rattle.std.specs.Prelude.{◌≡◌, ◌++◌, ◌∷◌, [], ◌≤◌, ◌⊎◌, ◌↔◌, List, ℕ, false, length, IfErr, IfOk, IsErrOf, OnErr, OnOk};
ghost use Rattle.page_model.specs.Replay.{below_root};
ghost use Rattle.event_model.specs.declared.limits.TheConstants.{MOST_HANDLERS};
ghost use Rattle.event_model.specs.Handlers.{fired_on};
ghost use Rattle.tpl_model.specs.Lines.{Line};
ghost use Rattle.tpl_live.specs.Contents.{standing};
ghost use Rattle.tpl_live.specs.Pages.{page_in, Stands};
ghost use Rattle.page_events.specs.declared.fault.FireFault.TheVariants as fire;
ghost use Rattle.page_events.specs.declared.fault.HandlerFault.TheVariants as handler;

use crate::fault::{FireFault, HandlerFault};
use crate::way::{MOST_STEPS, put_way};
use event_model::{Awaited, Fired, MOST_HANDLERS};
use sig_base::{PlaceId, Text};
use std::alloc::Global;
use std::marker::Model;
use tpl_live::Page;

/// What handlers wait for, in the order of making. Whoever keeps what they do keeps it by their places here.
pub struct Handlers {
    all: Vec<Awaited>,
}

impl Drop for Handlers {
    fn drop(self) {
        let Handlers { all: _ } = self;
    }
}

impl Model for Handlers {
    ghost use Rattle.std.specs.Prelude.{List};
    ghost use Rattle.event_model.specs.declared.awaited.Awaited.{Awaited};

    ghost Value = { List Awaited };

    ghost view = { λ h. h.all.items };
}

impl Handlers {
    /// No handlers.
    pub fn new(alloc: Global) -> Handlers
        ensures { result ≡ [] }
    {
        Handlers {
            all: Vec::new(alloc),
        }
    }

    /// How many there are.
    pub fn count(&self) -> usize
        ensures { result ≡ length self.now }
    {
        self.all.len()
    }

    /// A handler that waits for an event at the nodes of a line of a template; its place, which is the number of those that were made before.
    ///
    /// # Errors
    ///
    /// `Limit` exactly where there are as many as there may be, else `NoMemory` alone; all is as before then.
    pub fn add(
        &mut self,
        template: PlaceId,
        line: usize,
        event: &Text,
    ) -> Result<usize, HandlerFault>
        ensures place { IfOk result (λ n. n ≡ length self.old) }
        ensures after { OnOk result (self.new ≡ self.old ++ record { template = template; line = line; event = event.now } ∷ []) }
        ensures limit { IsErrOf result handler.Limit ↔ (MOST_HANDLERS ≤ length self.old) }
        ensures fault { IfErr result (λ e. (e ≡ handler.Limit) ⊎ (e ≡ handler.NoMemory)) }
        ensures err { OnErr result (self.new ≡ self.old) }
    {
        let place = self.all.len();
        if place >= MOST_HANDLERS {
            return Err(HandlerFault::Limit);
        }
        let event = event.copy()?;
        self.all.push(Awaited {
            template,
            line,
            event,
        })?;
        Ok(place)
    }

    /// The handlers that run as an event is fired at a node of a page of a template: those that wait for it at the node, then at its parent, and
    /// so on up to a child of the root; at one node in the order of making.
    ///
    /// # Errors
    ///
    /// `NoNode` exactly where the page has no such node or it is the root, else `NoMemory` alone.
    pub fn fired(
        &self,
        page: &Page,
        template: PlaceId,
        id: u64,
        event: &Text,
    ) -> Result<Vec<Fired>, FireFault>
        ensures fired { (lines : List Line) (links : List ℕ) → Stands lines links (standing page.now) →
            IfOk result (λ fs. fs.items ≡ fired_on self.now (page_in (standing page.now)) template id event.now) }
        ensures no_node { IsErrOf result (fire.NoNode id) ↔ (below_root id (standing page.now).tree ≡ false) }
        ensures fault { IfErr result (λ e. (e ≡ fire.NoNode id) ⊎ (e ≡ fire.NoMemory)) }
    {
        let alloc = *self.all.allocator();
        let Some(_) = page.parent_of(id) else {
            return Err(FireFault::NoNode(id));
        };
        let mut fired = Vec::new(alloc);
        put_way(&self.all, page, template, id, event, MOST_STEPS, &mut fired)?;
        Ok(fired)
    }
}
