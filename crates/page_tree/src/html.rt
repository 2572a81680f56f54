// A tree as HTML.
ghost use Rattle.std.specs.Prelude.{◌≡◌, ◌<◌, ◌∷◌, ◌++◌, [], ℕ, List, OnOk, codes};
ghost use Rattle.std.specs.List.{flat_map};
ghost use Rattle.html_out.specs.Html.{attribute, is_raw};
ghost use Rattle.page_model.specs.Html.{closing, element, html_in, opening};
ghost use Rattle.page_tree.specs.Rows.{build, look};

use crate::behind::Spot;
use crate::element_name::ElementName;
use crate::table::{Label, Node, find_near, spot_behind};
use html_out::{put_attr, put_bytes};
use indexmap::IndexMap;
use sig_base::{NoMemory, Text};

fn put_attributes(out: &mut Vec<u8>, attributes: &[(Text, Text)]) -> Result<(), NoMemory>
    ensures { OnOk result (out.new.items ≡ out.old.items ++ flat_map (λ (a : List ℕ × List ℕ). attribute a.0 a.1) attributes.now) }
{
    for attribute in attributes {
        put_attr(out, attribute.0.as_str(), attribute.1.as_str())?;
    }
    Ok(())
}

fn put_opening(out: &mut Vec<u8>, name: &str, attributes: &[(Text, Text)]) -> Result<(), NoMemory>
    ensures { OnOk result (out.new.items ≡ out.old.items ++ opening name.now attributes.now) }
{
    put_bytes(out, b"<")?;
    put_bytes(out, name.as_bytes())?;
    put_attributes(out, attributes)?;
    put_bytes(out, b">")?;
    Ok(())
}

fn put_closing(out: &mut Vec<u8>, name: &str) -> Result<(), NoMemory>
    ensures { OnOk result (out.new.items ≡ out.old.items ++ closing name.now) }
{
    put_bytes(out, b"</")?;
    put_bytes(out, name.as_bytes())?;
    put_bytes(out, b">")?;
    Ok(())
}

// An element around what stands below it; the first node there is looked for at a spot, and where the next one is looked for is told.
#[cycle(html)]
fn write_element(
    out: &mut Vec<u8>,
    nodes: &IndexMap<u64, Node>,
    name: &ElementName,
    attributes: &[(Text, Text)],
    children: &[u64],
    levels: u64,
    spot: Spot,
) -> Result<Spot, NoMemory>
    ensures { OnOk result (out.new.items ≡
        out.old.items ++ element name.now attributes.now (html_in (is_raw name.now) (build levels (look nodes.now) children.now))) }
{
    put_opening(out, name.as_str(), attributes)?;
    if name.is_void() {
        return Ok(spot);
    }
    let next = write_nodes(out, nodes, children, name.is_raw(), levels, spot)?;
    put_closing(out, name.as_str())?;
    Ok(next)
}

// One node and what stands below it. It mostly stands beside the one before it in the table too, so that no hash is needed; what is told is where the
// next node is looked for.
#[cycle(html)]
#[tactic(auto, using(crate::proofs::Bytes::shows_cons, crate::proofs::Bytes::shows_one, crate::proofs::Bytes::shows_none))]
fn write_node(
    out: &mut Vec<u8>,
    nodes: &IndexMap<u64, Node>,
    id: u64,
    raw: bool,
    levels: u64,
    spot: Spot,
) -> Result<Spot, NoMemory>
    requires { 0 < levels }
    ensures { OnOk result (out.new.items ≡ out.old.items ++ html_in raw (build levels (look nodes.now) (id ∷ []))) }
{
    let Some((place, node)) = find_near(nodes, spot, id) else {
        return Ok(spot);
    };
    let behind = spot_behind(place, node);
    match &node.label {
        Label::Root => Ok(behind),
        Label::Text(text) => {
            text.write(out, raw)?;
            Ok(behind)
        }
        Label::Element(name, attributes) => {
            let children = &node.children;
            let below = levels - 1;
            let next = write_element(out, nodes, name, attributes, children, below, behind)?;
            Ok(next)
        }
    }
}

/// Appends the bytes of these nodes and of what stands below them, on so many levels; their texts are escaped or as they are. The first is looked for
/// at a spot of the table, and where a next one is looked for is told.
#[cycle(html)]
#[tactic(auto, using(crate::proofs::Bytes::shows_cons, crate::proofs::Bytes::shows_one, crate::proofs::Bytes::shows_none))]
pub fn write_nodes(
    out: &mut Vec<u8>,
    nodes: &IndexMap<u64, Node>,
    ids: &[u64],
    raw: bool,
    levels: u64,
    spot: Spot,
) -> Result<Spot, NoMemory>
    ensures { OnOk result (out.new.items ≡ out.old.items ++ html_in raw (build levels (look nodes.now) ids.now)) }
{
    if levels == 0 {
        return Ok(spot);
    }
    let mut next = spot;
    for id in ids {
        next = write_node(out, nodes, *id, raw, levels, next)?;
    }
    Ok(next)
}
