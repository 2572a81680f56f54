// Things that stand under owners, cleanups, and the steps of taking back.
ghost use Rattle.std.specs.Prelude.{◌≡◌, IfOk};
ghost use Rattle.std.specs.Cmp.{decided, partial_equiv_from_equiv};
ghost use Rattle.sig_owner.specs.Keys.{same_key, same_key-Decides};

use sig_base::{EffectId, NoMemory, NodeId, OwnerId, PageId, Scalar, Value};

/// What can stand under an owner.
#[derive(Clone, Copy, Hash)]
pub enum Thing {
    Node(NodeId),
    Effect(EffectId),
    Page(PageId),
    Owner(OwnerId),
}

impl PartialEq for Thing {
    ghost eq = { same_key };

    ghost laws = { partial_equiv_from_equiv (decided same_key same_key-Decides) };

    fn eq(&self, other: &Thing) -> bool {
        match (self, other) {
            (Thing::Node(m), Thing::Node(n)) => m == n,
            (Thing::Effect(m), Thing::Effect(n)) => m == n,
            (Thing::Page(m), Thing::Page(n)) => m == n,
            (Thing::Owner(m), Thing::Owner(n)) => m == n,
            _ => false,
        }
    }
}

impl Eq for Thing {
    ghost laws = { decided same_key same_key-Decides };
}

/// What an effect notes, to be done when it is taken back: a cell is set, or a value is logged.
pub enum CleanupAct {
    Set(NodeId, Scalar),
    Log(Value),
}

impl Drop for CleanupAct {
    fn drop(self) {
        match self {
            CleanupAct::Set(_, _) => {}
            CleanupAct::Log(_) => {}
        }
    }
}

impl CleanupAct {
    /// The same cleanup.
    pub fn copy(&self) -> Result<CleanupAct, NoMemory>
        ensures { IfOk result (λ c. c ≡ self.now) }
    {
        match self {
            CleanupAct::Set(cell, scalar) => Ok(CleanupAct::Set(*cell, scalar.copy()?)),
            CleanupAct::Log(value) => Ok(CleanupAct::Log(value.copy()?)),
        }
    }
}

/// One step of taking back: a cleanup that was noted under an owner is to be done, or a thing is gone.
pub enum Undoing {
    Cleanup(OwnerId, CleanupAct),
    Gone(Thing),
}

impl Drop for Undoing {
    fn drop(self) {
        match self {
            Undoing::Cleanup(_, _) => {}
            Undoing::Gone(_) => {}
        }
    }
}
