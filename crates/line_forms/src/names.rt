// Lists of names.
ghost use Rattle.std.specs.Prelude.{◌≡◌};

use sig_base::Name;
use std::marker::Model;

/// Names in their order.
pub struct NameList {
    names: Vec<Name>,
}

impl Drop for NameList {
    fn drop(self) {
        let NameList { names: _ } = self;
    }
}

impl Model for NameList {
    ghost use Rattle.std.specs.Prelude.{List, ℕ};

    ghost Value = { List (List ℕ) };

    ghost view = { λ n. n.names.items };
}

impl NameList {
    /// These names in this order.
    pub fn of(names: Vec<Name>) -> NameList
        ensures { result ≡ names.items }
    {
        NameList { names }
    }

    /// The names in their order.
    pub fn as_slice(&self) -> &[Name]
        ensures { result.now ≡ self.now }
    {
        &self.names
    }
}
