// Pages and templates by their numbers.
ghost use Rattle.std.specs.Prelude.{◌≡◌, ◌<◌, [], List, None, Some, IfOk, IfSome, MatchOption, length, map, option_map, unwrap_or};
ghost use Rattle.std.specs.List.{filter};
ghost use Rattle.signal_model.specs.Signals.{is_in};
ghost use Rattle.live_model.specs.Machine.{page_at};
ghost use Rattle.live_model.specs.Pages.{page_html, template_in, Template};
ghost use Rattle.tpl_blocks.specs.Blocks.{lines_of};
ghost use Rattle.tpl_model.specs.Laws.{IsTemplate};
ghost use Rattle.tpl_live.specs.Pages.{IsStanding};
ghost use Rattle.tpl_live.specs.Contents.{standing};
ghost use Rattle.live_pages.specs.Updates.{AreShown, AreStanding, AreTemplates, IsShown};
ghost use Rattle.live_pages.specs.Views.{page_of, template_of};

use crate::mounted::{LinkedTemplate, Mounted};
use crate::report::html_of;
use live_entries::PageBytes;
use live_names::is_page_among;
use sig_base::{NoMemory, PageId};
use std::alloc::Global;

/// The template of a number.
pub fn template_among(templates: &[LinkedTemplate], template: u64) -> &LinkedTemplate
    requires { template < length templates.now }
    ensures known { template_of result.now ≡ template_in (map template_of templates.now) template }
    ensures read { AreTemplates templates.now → IsTemplate (lines_of result.now.template) }
{
    &templates[template as usize]
}

/// The page of a number, if one lives that has it.
pub fn page_among(pages: &[Mounted], number: PageId) -> Option<&Mounted>
    ensures found { MatchOption result (page_at (map page_of pages.now) number ≡ None) (λ p. page_at (map page_of pages.now) number ≡ Some (page_of p.now)) }
    ensures stands { AreStanding pages.now → IfSome result (λ p. IsStanding (standing p.now.page)) }
    ensures shown { (templates : List Template) → AreShown templates pages.now → IfSome result (λ p. IsShown templates p.now) }
{
    for page in pages {
        if number == page.number {
            return Some(page);
        }
    }
    None
}

/// The HTML of the page of a number as it was last brought up to date; nothing where there is none.
///
/// # Errors
///
/// `NoMemory` alone.
pub fn shown_of(alloc: Global, pages: &[Mounted], number: PageId) -> Result<PageBytes, NoMemory>
    requires { AreStanding pages.now }
    ensures { IfOk result (λ html. html ≡ unwrap_or (option_map page_html (page_at (map page_of pages.now) number)) []) }
{
    match page_among(pages, number) {
        Some(page) => {
            let html = html_of(alloc, &page.page)?;
            Ok(html)
        }
        None => PageBytes::of(alloc, Vec::new(alloc)),
    }
}

/// Drops the pages that are not among those that live.
pub fn keep_live(pages: &mut Vec<Mounted>, live: &[PageId])
    ensures { pages.new.items ≡ filter (λ p. is_in p.number live.now) pages.old.items }
{
    pages.retain(|page| is_page_among(live, page.number));
}
