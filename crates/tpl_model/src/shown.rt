// The nodes that a template shows.
ghost use Rattle.std.specs.Prelude.{◌≡◌, map, IfOk};
ghost use Rattle.std.specs.Option.{option_copied};
ghost use Rattle.page_model.specs.Addresses.{address};
ghost use Rattle.page_model.specs.Forest.{node, none};
ghost use Rattle.page_model.specs.Labels as label;
ghost use Rattle.std.specs.Cmp.{decided, partial_equiv_from_equiv};
ghost use Rattle.tpl_model.specs.ShownNodes.Addresses.{address_of, same_address, same_address-Decides, same_key};
ghost use Rattle.tpl_model.specs.ShownNodes.Shapes.{all_shown, shown_tree};

use sig_base::{NoMemory, Text};
use std::alloc::Global;

/// Where a node comes from: the ordinal of its line in the template, and the key of its row where the line stands in one.
#[derive(Hash)]
pub struct Address {
    pub line: usize,
    pub key: Option<Text>,
}

impl Drop for Address {
    fn drop(self) {
        let Address { line: _, key: _ } = self;
    }
}

// Whether two keys are one, or there is none.
fn same_key(key: &Option<Text>, other: &Option<Text>) -> bool
    ensures { result ≡ same_key key.now other.now }
{
    match (key, other) {
        (None, None) => true,
        (Some(key), Some(other)) => key == other,
        _ => false,
    }
}

impl PartialEq for Address {
    ghost eq = { same_address };

    ghost laws = { partial_equiv_from_equiv (decided same_address same_address-Decides) };

    fn eq(&self, other: &Address) -> bool {
        self.line == other.line && same_key(&self.key, &other.key)
    }
}

impl Eq for Address {
    ghost laws = { decided same_address same_address-Decides };
}

impl Address {
    /// The address of a line's node, in the row of that key.
    ///
    /// # Errors
    ///
    /// `NoMemory` alone.
    pub fn new(line: usize, key: Option<&Text>) -> Result<Address, NoMemory>
        ensures { IfOk result (λ a. address_of a ≡ address line (option_copied key.entry)) }
    {
        let key = match key {
            Some(key) => Some(key.copy()?),
            None => None,
        };
        Ok(Address { line, key })
    }
}

/// What a node below the root is and what it says.
pub enum Look {
    /// A text.
    Text(Text),
    /// An element: its name, and its attributes in the order of their lines; one that is absent has no value.
    Element(Text, Vec<(Text, Option<Text>)>),
}

impl Drop for Look {
    fn drop(self) {
        match self {
            Look::Text(_) => {}
            Look::Element(_, _) => {}
        }
    }
}

/// A node that lines show, with all below it.
#[derive(Drop)]
pub struct Shown {
    pub address: Address,
    pub look: Look,
    pub children: Vec<Shown>,
}

impl Shown {
    /// A text.
    #[tactic(auto, using(crate::proofs::ShownNodes::Equations::tree_shown))]
    pub fn text(alloc: Global, address: Address, text: Text) -> Shown
        ensures { shown_tree result ≡ node (address_of address) (label.Text text) none none }
    {
        Shown {
            address,
            look: Look::Text(text),
            children: Vec::new(alloc),
        }
    }

    /// An element.
    #[tactic(auto, using(crate::proofs::ShownNodes::Equations::tree_shown))]
    pub fn element(
        address: Address,
        name: Text,
        attributes: Vec<(Text, Option<Text>)>,
        children: Vec<Shown>,
    ) -> Shown
        ensures { shown_tree result ≡ node (address_of address) (label.Element name attributes.items) (all_shown children.items) none }
    {
        Shown {
            address,
            look: Look::Element(name, attributes),
            children,
        }
    }
}
