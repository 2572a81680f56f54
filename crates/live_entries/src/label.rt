// The labels of effects.
ghost use Rattle.std.specs.Prelude.{◌≡◌, [], IfOk};

use sig_base::{Name, NoMemory};
use std::alloc::Global;
use std::marker::Model;

/// The numbers of child effects, each of a child of the one before.
pub struct ChildPath {
    numbers: Vec<u64>,
}

impl Drop for ChildPath {
    fn drop(self) {
        let ChildPath { numbers: _ } = self;
    }
}

impl Model for ChildPath {
    ghost use Rattle.std.specs.Prelude.{List, ℕ};

    ghost Value = { List ℕ };

    ghost view = { λ p. p.numbers.items };
}

impl ChildPath {
    /// These numbers in this order.
    pub fn of(numbers: Vec<u64>) -> ChildPath
        ensures { result ≡ numbers.items }
    {
        ChildPath { numbers }
    }

    /// The numbers in their order.
    pub fn as_slice(&self) -> &[u64]
        ensures { result.now ≡ self.now }
    {
        &self.numbers
    }
}

/// What an effect or another thing is called in what is told: its name, or for a child effect the name of the effect that a command made,
/// and behind it, for each child on the way down, the number that it has among the children which one run of its parent makes, from 1.
pub struct Label {
    pub name: Name,
    pub path: ChildPath,
}

impl Drop for Label {
    fn drop(self) {
        let Label { name: _, path: _ } = self;
    }
}

impl Label {
    /// The label of what has a name.
    pub fn named(alloc: Global, name: Name) -> Label
        ensures { result ≡ record { name = name; path = [] } }
    {
        Label {
            name,
            path: ChildPath::of(Vec::new(alloc)),
        }
    }

    /// An equal label.
    ///
    /// # Errors
    ///
    /// `NoMemory` where it finds no room.
    pub fn copy(&self) -> Result<Label, NoMemory>
        ensures { IfOk result (λ l. l ≡ self.now) }
    {
        let name = self.name.copy()?;
        let numbers = self.path.numbers.clone()?;
        Ok(Label {
            name,
            path: ChildPath { numbers },
        })
    }
}
