// What is told of pages: the operations that lead to them, and their HTML.
ghost use Rattle.std.specs.Prelude.{◌≡◌, ◌++◌, ◌∷◌, [], IfOk, OnOk, map};
ghost use Rattle.page_model.specs.Html.{html_of};
ghost use Rattle.page_ops.specs.Ops.{op_of};
ghost use Rattle.tpl_live.specs.Pages.{IsStanding};
ghost use Rattle.tpl_live.specs.Contents.{standing};
ghost use Rattle.live_entries.specs.declared.entry.Entry.TheVariants as entry;
ghost use Rattle.live_model.specs.Machine.{news_of, ops_told};
ghost use Rattle.live_pages.specs.Views.{content_html, page_of};

use crate::mounted::Mounted;
use live_entries::{Entry, PageBytes, PageOp};
use live_labels::put_entry;
use page_ops::Op;
use page_tree::Tree;
use sig_base::{Name, NoMemory};
use std::alloc::Global;
use tpl_live::Page;

// How many bytes of HTML a child of the root mostly has, or more.
const LIKELY_BYTES: usize = 16;

/// The HTML of a tree.
///
/// # Errors
///
/// `NoMemory` alone.
pub fn tree_html(alloc: Global, tree: &Tree) -> Result<PageBytes, NoMemory>
    ensures { IfOk result (λ html. html ≡ html_of tree.now) }
{
    let room = tree.children(0).len().saturating_mul(LIKELY_BYTES);
    let mut out = Vec::with_capacity(alloc, room)?;
    tree.write_html(&mut out)?;
    let html = PageBytes::of(alloc, out)?;
    Ok(html)
}

/// The HTML of a page.
///
/// # Errors
///
/// `NoMemory` alone.
pub fn html_of(alloc: Global, page: &Page) -> Result<PageBytes, NoMemory>
    requires { IsStanding (standing page.now) }
    ensures { IfOk result (λ html. html ≡ content_html page.now) }
{
    let html = tree_html(alloc, page.tree())?;
    Ok(html)
}

/// Tells the operations on a page, one after the other.
///
/// # Errors
///
/// `NoMemory` alone.
pub fn tell_ops(told: &mut Vec<Entry>, name: &Name, ops: Vec<Op>) -> Result<(), NoMemory>
    ensures { OnOk result (told.new.items ≡ told.old.items ++ ops_told name.now (map op_of ops.items)) }
{
    for op in ops {
        put_entry(told, Entry::Op(name.copy()?, PageOp::of(op)))?;
    }
    Ok(())
}

/// Tells a page.
///
/// # Errors
///
/// `NoMemory` alone.
pub fn tell_page(told: &mut Vec<Entry>, name: &Name, page: &Page) -> Result<(), NoMemory>
    requires { IsStanding (standing page.now) }
    ensures { OnOk result (told.new.items ≡ told.old.items ++ entry.Page name.now (content_html page.now) ∷ []) }
{
    let html = html_of(*told.allocator(), page)?;
    put_entry(told, Entry::Page(name.copy()?, html))?;
    Ok(())
}

/// Tells operations, and the page to which they lead, if there is one.
///
/// # Errors
///
/// `NoMemory` alone.
pub fn tell_news(told: &mut Vec<Entry>, page: &Mounted, ops: Vec<Op>) -> Result<(), NoMemory>
    requires { IsStanding (standing page.now.page) }
    ensures { OnOk result (told.new.items ≡ told.old.items ++ news_of (page_of page.now) (map op_of ops.items)) }
{
    if ops.is_empty() {
        return Ok(());
    }
    tell_ops(told, &page.name, ops)?;
    tell_page(told, &page.name, &page.page)?;
    Ok(())
}
