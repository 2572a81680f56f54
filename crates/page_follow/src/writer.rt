// Pages are printed.
ghost use Rattle.std.specs.Prelude.{◌≡◌, ◌++◌, OnOk};
ghost use Rattle.wire_model.specs.Following.{page_line};

use page_tree::Tree;
use sig_base::{Name, NoMemory, put_decimal};

fn put(out: &mut Vec<u8>, bytes: &[u8]) -> Result<(), NoMemory>
    ensures { OnOk result (out.new.items ≡ out.old.items ++ bytes.now) }
{
    out.extend_from_slice(bytes)?;
    Ok(())
}

/// Appends the lines of a page: `page`, its name and the number of its bytes, and on the next line the bytes.
pub(crate) fn put_page(out: &mut Vec<u8>, name: &Name, tree: &Tree) -> Result<(), NoMemory>
    ensures { OnOk result (out.new.items ≡ out.old.items ++ page_line name.now tree.now) }
{
    let alloc = *out.allocator();
    let mut html = Vec::new(alloc);
    tree.write_html(&mut html)?;
    put(out, b"page ")?;
    put(out, name.as_str().as_bytes())?;
    put(out, b" ")?;
    put_decimal(out, html.len())?;
    put(out, b"\n")?;
    put(out, &html)?;
    put(out, b"\n")
}
