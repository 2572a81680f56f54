// The nodes of a shape that stand on a page already.
ghost use Rattle.std.specs.Prelude.{◌≡◌, ℕ, [], ◌∷◌, ◌++◌, map, Option, IfOk, OnOk};
ghost use Rattle.tpl_model.specs.ShownNodes.Shapes.{all_shown, child_of, mark_of, shown_tree};
ghost use Rattle.tpl_drawn.specs.Marks.{children_in, marks_in, Knows};
ghost use Rattle.tpl_drawn.specs.Addresses.{number_on};

use crate::marks::nodes::PageNodes;
use sig_base::NoMemory;
use std::alloc::Global;
use tpl_model::{Child, Mark, Shown};

// A node as a child of one that stands on the page. Where it stands there too, it is marked, and so are all below it that do; what stands below
// a new node is new.
#[cycle(marking)]
fn mark_node(
    alloc: Global,
    node: Shown,
    page: &PageNodes,
    marks: &mut Vec<Mark>,
) -> Result<Child, NoMemory>
    ensures child { (known : ℕ → Option ℕ) → Knows (number_on page.now) known →
        IfOk result (λ c. child_of c ∷ [] ≡ children_in known (shown_tree node)) }
    ensures marks { (known : ℕ → Option ℕ) → Knows (number_on page.now) known →
        OnOk result (map mark_of marks.new.items ≡ map mark_of marks.old.items ++ marks_in known (shown_tree node)) }
{
    let Shown {
        address,
        look,
        children,
    } = node;
    let number = page.number_of(address.line, address.key.as_ref())?;
    let Some(number) = number else {
        let coming = Shown {
            address,
            look,
            children,
        };
        let coming = Box::new(alloc, coming)?;
        return Ok(Child::New(coming));
    };
    let children = mark_all(alloc, children, page, marks)?;
    marks.push(Mark {
        number,
        look: Some(look),
        children,
    })?;
    Ok(Child::Kept(number))
}

/// Nodes one after the other as the children of one that stands on the page. Each that stands there too is marked, behind those below it that do.
///
/// # Errors
///
/// `NoMemory` alone.
#[cycle(marking)]
pub(crate) fn mark_all(
    alloc: Global,
    nodes: Vec<Shown>,
    page: &PageNodes,
    marks: &mut Vec<Mark>,
) -> Result<Vec<Child>, NoMemory>
    ensures children { (known : ℕ → Option ℕ) → Knows (number_on page.now) known →
        IfOk result (λ cs. map child_of cs.items ≡ children_in known (all_shown nodes.items)) }
    ensures marks { (known : ℕ → Option ℕ) → Knows (number_on page.now) known →
        OnOk result (map mark_of marks.new.items ≡ map mark_of marks.old.items ++ marks_in known (all_shown nodes.items)) }
{
    let mut children = Vec::with_capacity(alloc, nodes.len())?;
    for node in nodes {
        let child = mark_node(alloc, node, page, marks)?;
        children.push(child)?;
    }
    Ok(children)
}
