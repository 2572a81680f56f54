// Lists of ids that are shared.
ghost use Rattle.std.specs.Prelude.{◌≡◌, IfOk};
ghost use Rattle.sig_nodes.specs.Listed.{listed, slotted};

use sig_base::{NoMemory, NodeId};
use std::alloc::Global;
use std::marker::Model;
use std::rc::Rc;
use std::slice;

// Most lists have one id, which stands where the list does: so a look at it is a look at the list.
enum Ids {
    One(NodeId),
    Shared(Rc<Vec<NodeId>>),
}

impl Drop for Ids {
    #[inline(always)]
    fn drop(self) {
        match self {
            Ids::One(_) => {}
            Ids::Shared(_) => {}
        }
    }
}

/// A list of ids. Its copies share it, unless it has one id.
pub struct IdList {
    ids: Ids,
}

impl Drop for IdList {
    #[inline(always)]
    fn drop(self) {
        let IdList { ids: _ } = self;
    }
}

impl Model for IdList {
    ghost use Rattle.sig_nodes.specs.Listed.{Listed, listed};

    ghost Value = { Listed };

    ghost view = { λ l. listed l.ids };
}

// The ids of a list of one, or else the list itself, which is shared from then on.
fn ids_of(alloc: Global, ids: Vec<NodeId>) -> Result<Ids, NoMemory>
    ensures { IfOk result (λ i. listed i ≡ record { items = ids.items }) }
{
    if let [id] = ids.as_slice() {
        return Ok(Ids::One(*id));
    }
    Ok(Ids::Shared(Rc::new(alloc, ids)?))
}

impl Ids {
    fn as_slice(&self) -> &[NodeId]
        ensures { result.now ≡ (listed self.now).items }
    {
        match self {
            Ids::One(id) => slice::from_ref(id),
            Ids::Shared(ids) => ids.as_slice(),
        }
    }

    fn copy(&self) -> Result<Ids, NoMemory>
        ensures { IfOk result (λ i. listed i ≡ listed self.now) }
    {
        match self {
            Ids::One(id) => Ok(Ids::One(*id)),
            Ids::Shared(ids) => Ok(Ids::Shared(ids.clone()?)),
        }
    }
}

impl IdList {
    /// The list of these ids.
    pub fn of(alloc: Global, ids: Vec<NodeId>) -> Result<IdList, NoMemory>
        ensures { IfOk result (λ l. l ≡ record { items = ids.items }) }
    {
        Ok(IdList {
            ids: ids_of(alloc, ids)?,
        })
    }

    /// The ids in order.
    #[inline(always)]
    pub fn as_slice(&self) -> &[NodeId]
        ensures { result.now ≡ self.now.items }
    {
        self.ids.as_slice()
    }

    /// The same list, which is shared.
    #[inline(always)]
    pub fn copy(&self) -> Result<IdList, NoMemory>
        ensures { IfOk result (λ l. l ≡ self.now) }
    {
        Ok(IdList {
            ids: self.ids.copy()?,
        })
    }
}

// Most recipes have one slot.
#[derive(Drop)]
enum Few {
    One(NodeId),
    Many(Vec<NodeId>),
}

/// The signals of a recipe's slots.
#[derive(Drop)]
pub(crate) struct Slots {
    few: Few,
}

impl Model for Slots {
    ghost use Rattle.sig_nodes.specs.Listed.{Listed, slotted};

    ghost Value = { Listed };

    ghost view = { λ s. slotted s.few };
}

// The id of a list of one, or else the list itself.
fn few_of(ids: Vec<NodeId>) -> Few
    ensures { slotted result ≡ record { items = ids.items } }
{
    if let [id] = ids.as_slice() {
        return Few::One(*id);
    }
    Few::Many(ids)
}

impl Few {
    fn as_slice(&self) -> &[NodeId]
        ensures { result.now ≡ (slotted self.now).items }
    {
        match self {
            Few::One(id) => slice::from_ref(id),
            Few::Many(ids) => ids,
        }
    }
}

impl Slots {
    /// These signals.
    pub(crate) fn of(ids: Vec<NodeId>) -> Slots
        ensures { result ≡ record { items = ids.items } }
    {
        Slots { few: few_of(ids) }
    }

    /// The signals in order.
    #[inline(always)]
    pub(crate) fn as_slice(&self) -> &[NodeId]
        ensures { result.now ≡ self.now.items }
    {
        self.few.as_slice()
    }
}
