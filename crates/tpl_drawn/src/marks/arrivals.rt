// The addresses of what comes to a page.
ghost use Rattle.std.specs.Prelude.{◌≡◌, ◌∷◌, ◌++◌, [], map, OnOk};
ghost use Rattle.tpl_model.specs.ShownNodes.Addresses.{address_of};
ghost use Rattle.tpl_model.specs.ShownNodes.Shapes.{child_of, mark_of};
ghost use Rattle.tpl_drawn.specs.Addresses.{coming_below, coming_in};

use crate::marks::numbers::put_address;
use sig_base::NoMemory;
use tpl_model::{Address, Child, Mark};

// Appends the addresses of a child that comes with all below it.
fn put_child(child: Child, out: &mut Vec<Address>) -> Result<(), NoMemory>
    ensures { OnOk result (map address_of out.new.items ≡ map address_of out.old.items ++ coming_in (child_of child ∷ [])) }
{
    match child {
        Child::Kept(_) => Ok(()),
        Child::New(node) => {
            put_address(Box::into_inner(node), out)?;
            Ok(())
        }
    }
}

// Appends the addresses of those children that come with all below them.
fn put_children(children: Vec<Child>, out: &mut Vec<Address>) -> Result<(), NoMemory>
    ensures { OnOk result (map address_of out.new.items ≡ map address_of out.old.items ++ coming_in (map child_of children.items)) }
{
    for child in children {
        put_child(child, out)?;
    }
    Ok(())
}

/// Appends the addresses of what comes to marked nodes, one node after the other, in document order below each.
///
/// # Errors
///
/// `NoMemory` alone.
pub fn put_coming(marks: Vec<Mark>, out: &mut Vec<Address>) -> Result<(), NoMemory>
    ensures { OnOk result (map address_of out.new.items ≡ map address_of out.old.items ++ coming_below (map mark_of marks.items)) }
{
    for mark in marks {
        put_children(mark.children, out)?;
    }
    Ok(())
}
