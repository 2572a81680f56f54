// The numbers of a page's nodes by their addresses.
ghost use Rattle.std.specs.Prelude.{◌≡◌, ◌≤◌, ◌<◌, ℕ, ◌+◌, ◌/◌, ◌^◌, ltb, ◌∷◌, ◌++◌, None, Some, drop, if◌then◌else◌, length, map, IfOk, IfSome, OnOk};
ghost use Rattle.std.specs.Option.{option_copied};
ghost use Rattle.indexmap.specs.IndexMap.{index_map_len};
ghost use Rattle.page_model.specs.Forest.{Forest, keys, tally};
ghost use Rattle.page_model.specs.Labels.{Look};
ghost use Rattle.page_model.specs.Pages.{by_number};
ghost use Rattle.tpl_model.specs.ShownNodes.Addresses.{address_of, same_address, same_key};
ghost use Rattle.tpl_model.specs.ShownNodes.Shapes.{all_shown, shown_tree};
ghost use Rattle.tpl_model.specs.declared.shown.Address.{Address as AnAddress};
ghost use Rattle.tpl_drawn.specs.Addresses.{address_at, noted_from, number_at, number_in, AreNumbersOf};
ghost use Rattle.tpl_drawn.specs.Lines.{line_at, lined, lined_from};

use crate::marks::guess::Guess;
use crate::marks::lines::{lines_under, note_lines};
use indexmap::IndexMap;
use sig_base::{NoMemory, Text};
use std::alloc::Global;
use tpl_model::{Address, Shown};

// Appends the address of a node and those of all below it, in document order.
pub(crate) fn put_address(node: Shown, out: &mut Vec<Address>) -> Result<(), NoMemory>
    ensures { OnOk result (map address_of out.new.items ≡ map address_of out.old.items ++ keys (shown_tree node)) }
{
    let Shown {
        address,
        children,
        ..
    } = node;
    out.push(address)?;
    for child in children {
        put_address(child, out)?;
    }
    Ok(())
}

/// Appends the addresses of nodes, in document order.
///
/// # Errors
///
/// `NoMemory` alone.
pub fn put_addresses(nodes: Vec<Shown>, out: &mut Vec<Address>) -> Result<(), NoMemory>
    ensures { OnOk result (map address_of out.new.items ≡ map address_of out.old.items ++ keys (all_shown nodes.items)) }
{
    for node in nodes {
        put_address(node, out)?;
    }
    Ok(())
}

// Notes the number of an address.
fn note(all: &mut IndexMap<Address, u64>, address: Address, number: u64) -> Result<(), NoMemory>
    ensures { OnOk result ((a : AnAddress) → number_in all.new a ≡ (if same_address address a then Some number else number_in all.old a)) }
{
    all.insert(address, number)?;
    Ok(())
}

// Notes the numbers of these addresses, which are those from this one on.
fn note_numbers(
    all: &mut IndexMap<Address, u64>,
    addresses: Vec<Address>,
    from: u64,
) -> Result<(), NoMemory>
    requires { from + length addresses.items < 2 ^ 64 }
    ensures { OnOk result ((a : AnAddress) → number_in all.new a ≡ noted_from addresses.items from (number_in all.old) a) }
{
    let mut number = from;
    for address in addresses {
        note(all, address, number)?;
        number += 1;
    }
    Ok(())
}

// Whether a key is the other, or there is none.
fn is_key(noted: &Option<Text>, key: Option<&Text>) -> bool
    ensures { result ≡ same_key noted.now (option_copied key.entry) }
{
    match (noted, key) {
        (None, None) => true,
        (Some(noted), Some(key)) => noted == key,
        _ => false,
    }
}

// Whether an address is that of a line in the row of that key.
fn is_of(noted: &Address, line: usize, key: Option<&Text>) -> bool
    ensures { result ≡ same_address noted.now (address_at line (option_copied key.entry)) }
{
    noted.line == line && is_key(&noted.key, key)
}

/// The numbers that were noted of addresses, and the line of each: those of each node of a page, and of some that are gone, until they are read
/// off anew.
pub struct Numbers {
    all: IndexMap<Address, u64>,
    lines: IndexMap<u64, usize>,
    read: usize,
    guess: Guess,
}

impl Drop for Numbers {
    fn drop(self) {
        let Numbers {
            all: _,
            lines: _,
            read: _,
            guess: _,
        } = self;
    }
}

impl Numbers {
    /// The numbers of the nodes below the root, whose addresses are these in document order; the numbers of all nodes are these, in the same
    /// order behind that of the root.
    ///
    /// # Errors
    ///
    /// `NoMemory` alone.
    pub fn of(alloc: Global, addresses: Vec<Address>, numbers: &[u64]) -> Result<Numbers, NoMemory>
        requires { length addresses.items + 1 ≡ length numbers.now }
        ensures lines { IfOk result (λ n. (k : ℕ) → line_at n k ≡ lined addresses.items (drop 1 numbers.now) (λ j. None) k) }
        ensures numbers { (nodes : Forest (ℕ × Look)) (root : ℕ) → ((j : ℕ) → tally j nodes ≤ 1) → map address_of addresses.items ≡ keys nodes →
            numbers.now ≡ root ∷ keys (by_number nodes) → IfOk result (λ n. AreNumbersOf (number_at n) nodes) }
    {
        let (_, below) = numbers.split_at(1);
        let lines = lines_under(alloc, &addresses, below)?;
        let mut all = IndexMap::with_capacity(alloc, addresses.len())?;
        let mut at = 1;
        for address in addresses {
            note(&mut all, address, numbers[at])?;
            at += 1;
        }
        let read = all.len();
        let guess = Guess::of(alloc, read)?;
        Ok(Numbers {
            all,
            lines,
            read,
            guess,
        })
    }

    /// Notes these addresses under the numbers from this one on, one after the other; one that was noted has its new number then.
    ///
    /// # Errors
    ///
    /// `NoMemory` alone; some may then be noted.
    pub fn note_all(&mut self, addresses: Vec<Address>, from: u64) -> Result<(), NoMemory>
        requires { from + length addresses.items < 2 ^ 64 }
        ensures lines { OnOk result ((k : ℕ) → line_at self.new k ≡ lined_from addresses.items from (line_at self.old) k) }
        ensures numbers { OnOk result ((a : AnAddress) → number_at self.new a ≡ noted_from addresses.items from (number_at self.old) a) }
    {
        self.guess.grow(addresses.len())?;
        note_lines(&mut self.lines, &addresses, from)?;
        note_numbers(&mut self.all, addresses, from)?;
        Ok(())
    }

    /// Whether half of the addresses that are noted are more than all there were when they were read off: most may be of nodes that are gone.
    pub fn is_crowded(&self) -> bool
        ensures { result ≡ ltb self.now.read (index_map_len self.now.all / 2) }
    {
        self.read < self.all.len() / 2
    }

    /// The number that was noted of a line in the row of that key. Where it stands at the likely place, it isn't searched for.
    ///
    /// # Errors
    ///
    /// `NoMemory` alone.
    pub(crate) fn number_of(&self, line: usize, key: Option<&Text>) -> Result<Option<u64>, NoMemory>
        ensures { IfOk result (λ n. n ≡ number_at self.now (address_at line (option_copied key.entry))) }
    {
        let likely = self.guess.place();
        if let Some(number) = self.number_likely(likely, line, key) {
            self.guess.stood(likely);
            return Ok(Some(number));
        }
        let address = Address::new(line, key)?;
        Ok(self.number_found(&address))
    }
    // The number that was noted of a line in the row of that key, looked for at one place alone.
    #[tactic(auto, using(crate::proofs::Numbered::Addresses::number_same))]
    fn number_likely(&self, place: usize, line: usize, key: Option<&Text>) -> Option<u64>
        ensures { IfSome result (λ n. number_at self.now (address_at line (option_copied key.entry)) ≡ Some n) }
    {
        let (noted, number) = self.all.get_index(place)?;
        if is_of(noted, line, key) {
            return Some(*number);
        }
        None
    }
    // The number that was noted of an address, searched for.
    fn number_found(&self, address: &Address) -> Option<u64>
        ensures { result ≡ number_at self.now address.now }
    {
        let (place, _, number) = self.all.get_full(address)?;
        self.guess.found(place);
        Some(*number)
    }
    /// The likely place in the page's tree of the node whose number was told last.
    pub(crate) fn node_place(&self) -> usize {
        self.guess.node_place()
    }
    /// The node whose number was told last stands at this place of the page's tree.
    pub(crate) fn node_stood(&self, place: usize) {
        self.guess.node_stood(place);
    }
    /// The line that was noted of a number.
    pub fn line(&self, number: u64) -> Option<usize>
        ensures { result ≡ line_at self.now number }
    {
        self.lines.get(&number).copied()
    }
}
