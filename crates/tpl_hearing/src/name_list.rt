// Names in order, which several lists of outcomes share.
ghost use Rattle.std.specs.Prelude.{◌≡◌, ◌≤◌, ◌++◌, ◌∷◌, [], false, length, nat_eq, slice_get, take, true, Some, IfNone, IfOk, IfSome, OnOk};
ghost use Rattle.std.specs.List.{list_any, IsDistinct};
ghost use Rattle.std.specs.Rc.{rc_value};

use indexmap::IndexSet;
use sig_base::{NoMemory, NodeId};
use std::alloc::Global;
use std::marker::Model;
use std::rc::Rc;

/// Names in order, each of them once. Copies share them.
pub(crate) struct NameList {
    shared: Option<Rc<IndexSet<NodeId>>>,
}

impl Drop for NameList {
    fn drop(self) {
        let NameList { shared: _ } = self;
    }
}

impl Model for NameList {
    ghost use Rattle.std.specs.Prelude.{ℕ, List, [], option_map, unwrap_or};
    ghost use Rattle.std.specs.Rc.{rc_value};
    ghost use Rattle.indexmap.specs.IndexSet.{keys};

    ghost Value = { List ℕ };

    ghost view = { λ n. unwrap_or (option_map (λ r. keys (rc_value r)) n.shared) [] };
}

// The first names, so many of them, and one more.
fn longer(
    alloc: Global,
    names: &IndexSet<NodeId>,
    count: usize,
    id: NodeId,
) -> Result<Rc<IndexSet<NodeId>>, NoMemory>
    requires within { count ≤ length names.now.keys }
    requires new { list_any (nat_eq id) (take count names.now.keys) ≡ false }
    ensures { IfOk result (λ r. (rc_value r).keys ≡ take count names.now.keys ++ id ∷ []) }
{
    let mut own = IndexSet::with_capacity(alloc, names.len())?;
    for place in 0..count {
        own.insert(names[place])?;
    }
    own.insert(id)?;
    let shared = Rc::new(alloc, own)?;
    Ok(shared)
}

// The first names stay, so many of them.
fn cut(names: &mut IndexSet<NodeId>, count: usize)
    ensures { names.new.keys ≡ take count names.old.keys }
{
    if names.len() > count {
        names.truncate(count);
    }
}

// The same where they stand, where nothing else shares them: whether it is so.
fn follow(shared: &mut Rc<IndexSet<NodeId>>, count: usize, id: NodeId) -> Result<bool, NoMemory>
    requires { list_any (nat_eq id) (take count (rc_value shared.old).keys) ≡ false }
    ensures within { count ≤ length (rc_value shared.old).keys → count ≤ length (rc_value shared.new).keys }
    ensures own { IfOk result (λ own. own ≡ true → (rc_value shared.new).keys ≡ take count (rc_value shared.old).keys ++ id ∷ []) }
    ensures other { IfOk result (λ own. own ≡ false → (rc_value shared.new).keys ≡ (rc_value shared.old).keys) }
{
    let Some(names) = Rc::get_mut(shared) else {
        return Ok(false);
    };
    cut(names, count);
    names.insert(id)?;
    Ok(true)
}

// So many names stay, and one more comes behind them.
fn put_behind(
    alloc: Global,
    shared: &mut Rc<IndexSet<NodeId>>,
    count: usize,
    id: NodeId,
) -> Result<(), NoMemory>
    requires within { count ≤ length (rc_value shared.old).keys }
    requires new { list_any (nat_eq id) (take count (rc_value shared.old).keys) ≡ false }
    ensures within { count ≤ length (rc_value shared.new).keys }
    ensures put { OnOk result ((rc_value shared.new).keys ≡ take count (rc_value shared.old).keys ++ id ∷ []) }
{
    if follow(shared, count, id)? {
        return Ok(());
    }
    *shared = longer(alloc, shared, count, id)?;
    Ok(())
}

// One name.
fn alone(alloc: Global, id: NodeId) -> Result<Rc<IndexSet<NodeId>>, NoMemory>
    ensures { IfOk result (λ r. (rc_value r).keys ≡ id ∷ []) }
{
    let mut names = IndexSet::new(alloc);
    names.insert(id)?;
    let shared = Rc::new(alloc, names)?;
    Ok(shared)
}

// Where a name stands.
fn place_in(names: &IndexSet<NodeId>, id: NodeId) -> Option<usize>
    ensures some { IfSome result (λ place. slice_get names.now.keys place ≡ Some id) }
    ensures none { IfNone result (list_any (nat_eq id) names.now.keys ≡ false) }
{
    names.get_index_of(&id)
}

impl NameList {
    /// No names.
    pub fn new() -> NameList
        ensures { result ≡ [] }
    {
        NameList { shared: None }
    }

    /// The same names, which are shared.
    ///
    /// # Errors
    ///
    /// `NoMemory` alone.
    pub fn copy(&self) -> Result<NameList, NoMemory>
        ensures { IfOk result (λ n. n ≡ self.now) }
    {
        match &self.shared {
            Some(names) => Ok(NameList {
                shared: Some(names.clone()?),
            }),
            None => Ok(NameList::new()),
        }
    }

    /// How many names there are, each of them once.
    pub fn count(&self) -> usize
        ensures count { result ≡ length self.now }
        ensures once { IsDistinct nat_eq self.now }
    {
        match &self.shared {
            Some(names) => names.len(),
            None => 0,
        }
    }

    /// The names in order.
    #[inline(always)]
    pub fn as_slice(&self) -> &[NodeId]
        ensures { result.now ≡ self.now }
    {
        match &self.shared {
            Some(names) => names.as_slice(),
            None => &[],
        }
    }

    /// The name at a place.
    #[inline(always)]
    pub fn at(&self, place: usize) -> Option<NodeId>
        ensures { result ≡ slice_get self.now place }
    {
        match &self.shared {
            Some(names) => names.get_index(place).copied(),
            None => None,
        }
    }

    /// Whether a name stands at a place.
    #[inline(always)]
    pub fn is_at(&self, place: usize, id: NodeId) -> bool
        ensures { result ≡ true → slice_get self.now place ≡ Some id }
    {
        match self.at(place) {
            Some(name) => name == id,
            None => false,
        }
    }

    /// Where a name stands.
    pub fn place(&self, id: NodeId) -> Option<usize>
        ensures some { IfSome result (λ place. slice_get self.now place ≡ Some id) }
        ensures none { IfNone result (list_any (nat_eq id) self.now ≡ false) }
    {
        match &self.shared {
            Some(names) => place_in(names, id),
            None => None,
        }
    }

    /// So many names stay, and one more comes behind them.
    ///
    /// # Errors
    ///
    /// `NoMemory` alone.
    #[inline(never)]
    pub fn put(&mut self, alloc: Global, count: usize, id: NodeId) -> Result<(), NoMemory>
        requires within { count ≤ length self.old }
        requires new { list_any (nat_eq id) (take count self.old) ≡ false }
        ensures within { count ≤ length self.new }
        ensures put { OnOk result (self.new ≡ take count self.old ++ id ∷ []) }
    {
        let Some(shared) = &mut self.shared else {
            let names = alone(alloc, id)?;
            self.shared = Some(names);
            return Ok(());
        };
        put_behind(alloc, shared, count, id)?;
        Ok(())
    }
}
