// Templates, and how they are written.

use crate::blocks::{is_written, read};
use sig_base::{Name, NoMemory};
use sig_formula::Formula;
use std::alloc::Global;
use tpl_syntax::{Line, Mark, Purpose};

const TODO: &str = "tag @section
attr @class \"todo\"
tag @ul
each shown
tag @li
attr @data-key it.key
attr @hidden false
text it.title
end
end
end
if count(shown) == 0
tag @p
text \"Nothing here.\"
end
end
tag @p
text open ++ \" open\"
end
end
";

// Whether a template is written as it stands here.
fn stands(alloc: Global, block: &str) -> Result<bool, NoMemory> {
    is_written(alloc, block.as_bytes(), block.as_bytes())
}

// Whether these are the names.
fn are_names(names: &[Name], others: &[&str]) -> bool {
    names.len() == others.len()
        && names
            .iter()
            .zip(others)
            .all(|(name, other)| name.as_str() == *other)
}

// Whether these are the names of a template.
fn has_names(alloc: Global, block: &str, names: &[&str]) -> bool {
    match read(alloc, block.as_bytes()) {
        Some(Ok(template)) => are_names(template.names(), names),
        _ => false,
    }
}

// Whether these are the lines: any, a part that depends on the last of three names, a text of the second name, and an end.
fn are_slots(lines: &[Line<Formula>]) -> bool {
    match lines {
        [
            _,
            Line::Over(Purpose::If, Formula::Slot(2)),
            Line::Over(Purpose::Text, Formula::Slot(1)),
            Line::Plain(Mark::End),
        ] => true,
        _ => false,
    }
}

// Whether those are the lines of a template.
fn has_slots(alloc: Global, block: &str) -> bool {
    match read(alloc, block.as_bytes()) {
        Some(Ok(template)) => are_slots(template.lines()),
        _ => false,
    }
}

#[test]
fn a_page_of_things_to_do(rt: HostRuntime) -> Result<(), NoMemory> {
    let alloc = rt.alloc();
    assert!(rt; stands(alloc, TODO)?);
    assert!(rt; has_names(alloc, TODO, &["shown", "open"]));
    Ok(())
}

#[test]
fn a_script_is_a_literal(rt: HostRuntime) -> Result<(), NoMemory> {
    let alloc = rt.alloc();
    assert!(rt; stands(alloc, "tag @script\ntext \"if (a < b) {}\"\nend\n")?);
    let spaced = b" tag @script\n\n attr @src 1\n # x\n text (\"< /\")\nend";
    let expected = b"tag @script\nattr @src 1\ntext \"< /\"\nend\n";
    assert!(rt; is_written(alloc, spaced, expected)?);
    Ok(())
}

#[test]
fn parts_and_empty_elements(rt: HostRuntime) -> Result<(), NoMemory> {
    let alloc = rt.alloc();
    assert!(rt;
        stands(
            alloc,
            "if c\ntext \"yes\"\nelse\ntext \"no\"\nend\ntag @input\nattr @disabled d\nend\n"
        )?
    );
    assert!(rt;
        stands(
            alloc,
            "each l\nif it.key == a\nelse\ntag @br\nend\nend\nend\n"
        )?
    );
    assert!(rt; stands(alloc, "")?);
    Ok(())
}

#[test]
fn slots_are_places_among_all_names(rt: HostRuntime) {
    let block = "text a + b\nif c\ntext b\nend\n";
    assert!(rt; has_names(rt.alloc(), block, &["a", "b", "c"]));
    assert!(rt; has_slots(rt.alloc(), block));
}
