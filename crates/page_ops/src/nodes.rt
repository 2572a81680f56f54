// The nodes of an operation's text.
ghost use Rattle.std.specs.Prelude.{◌≡◌, ◌++◌, ◌∷◌, ◌≤◌, ◌&&◌, nat_lt, suc, ℕ, List, [], IfOk, OnOk, true, false, length, slice_index};
ghost use Rattle.std.specs.Fmt.{decimal};
ghost use Rattle.sig_base.specs.Words.{in_tag};
ghost use Rattle.html_out.specs.Html.{good_name};
ghost use Rattle.page_model.specs.Forest.{Forest, node, none};
ghost use Rattle.page_model.specs.Labels.{Kind, named};
ghost use Rattle.page_model.specs.Texts.{IsNumber, IsText, written_attributes, written_nodes};
ghost use Rattle.page_tree.specs.Subs.{sub_tree};
ghost use Rattle.page_ops.specs.Parser.{AreFit, IsFit, begins_attribute, begins_node, node_text};

use crate::parts::{behind, behind_literal, byte_at, literal, name, number, word};
use page_tree::Sub;
use sig_base::{NoMemory, Text};
use std::alloc::Global;

fn is_named(attributes: &[(Text, Text)], name: &Text) -> bool
    ensures { result ≡ named name.now attributes.now }
{
    for attribute in attributes {
        if attribute.0 == *name {
            return true;
        }
    }
    false
}

// Appends an attribute, unless its name is there.
fn put_attribute(list: &mut Vec<(Text, Text)>, name: Text, value: Text) -> Result<(), NoMemory>
    requires name { good_name name ≡ true }
    requires value { IsText value }
    requires fit { AreFit list.old.items }
    ensures fit { OnOk result (AreFit list.new.items) }
    ensures put { OnOk result (named name list.old.items ≡ false → list.new.items ≡ list.old.items ++ (name, value) ∷ []) }
{
    if is_named(list, &name) {
        return Ok(());
    }
    list.push((name, value))?;
    Ok(())
}

fn begins_attribute(bytes: &[u8]) -> bool
    ensures { result ≡ begins_attribute bytes.now }
{
    byte_at(bytes, 0) == b' ' && byte_at(bytes, 1).is_ascii_lowercase()
}

// Whether a node begins there, where so many levels may follow.
fn begins_node(bytes: &[u8], levels: u64) -> bool
    ensures { result ≡ (nat_lt 0 levels && begins_node bytes.now) }
{
    levels > 0 && byte_at(bytes, 0) == b' ' && byte_at(bytes, 1) == b'('
}

// The attributes at the front, each with a space before it, and what stands behind them.
fn attributes(alloc: Global, bytes: &[u8]) -> Result<(Vec<(Text, Text)>, &[u8]), NoMemory>
    ensures fit { IfOk result (λ r. AreFit r.0.items) }
    ensures shorter { IfOk result (λ r. length r.1.now ≤ length bytes.now) }
    ensures same { IfOk result (λ r. (xs : List (List ℕ × List ℕ)) (k : Forest Kind) (rest : List ℕ) → AreFit xs
        → bytes.now ≡ written_attributes xs ++ (written_nodes k ++ 41 ∷ rest)
        → (r.0.items ≡ xs) × (r.1.now ≡ written_nodes k ++ 41 ∷ rest)) }
{
    let mut list = Vec::new(alloc);
    let mut left = bytes;
    while begins_attribute(left) {
        let (word, after) = word(behind(left, 1));
        let name = name(alloc, word)?;
        let quote = behind(after, 1);
        let value = literal(alloc, quote)?;
        put_attribute(&mut list, name, value)?;
        left = behind_literal(quote);
    }
    Ok((list, left))
}

/// The number at the front, and what stands behind it.
pub fn number_at(bytes: &[u8]) -> (u64, &[u8])
    ensures number { IsNumber result.0 }
    ensures shorter { length result.1.now ≤ length bytes.now }
    ensures same { (n : ℕ) (rest : List ℕ) → IsNumber n → in_tag (slice_index rest 0) ≡ false → bytes.now ≡ decimal n ++ rest
        → (result.0 ≡ n) × (result.1.now ≡ rest) }
{
    let (digits, left) = word(bytes);
    (number(digits), left)
}

/// The node whose number stands at the front, with what stands below it on at most so many levels, and what stands behind it.
pub fn sub(alloc: Global, bytes: &[u8], levels: u64) -> Result<(Sub, &[u8]), NoMemory>
    ensures fit { IfOk result (λ r. IsFit (suc levels) (sub_tree r.0)) }
    ensures shorter { IfOk result (λ r. length r.1.now ≤ length bytes.now) }
    ensures same { IfOk result (λ r. (n : ℕ) (x : Kind) (k : Forest Kind) (rest : List ℕ) → IsFit (suc levels) (node n x k none)
        → bytes.now ≡ node_text n x k rest → (sub_tree r.0 ≡ node n x k none) × (r.1.now ≡ rest)) }
{
    let (number, after) = number_at(bytes);
    let label = behind(after, 1);
    if byte_at(label, 0) == b'"' {
        let text = literal(alloc, label)?;
        return Ok((Sub::Text(number, text), behind(behind_literal(label), 1)));
    }
    let (word, after) = word(label);
    let name = name(alloc, word)?;
    let (attributes, children) = attributes(alloc, after)?;
    let mut subs = Vec::new(alloc);
    let mut left = children;
    while begins_node(left, levels) {
        let (child, after) = sub(alloc, behind(left, 2), levels - 1)?;
        subs.push(child)?;
        left = after;
    }
    Ok((
        Sub::Element(number, name, attributes, subs),
        behind(left, 1),
    ))
}
