// The pages that are mounted.
ghost use Rattle.std.specs.Prelude.{◌≡◌, None, MatchOption};
ghost use Rattle.std.specs.List.{list_any, position};
ghost use Rattle.std.specs.Str.{bytes_eq};
ghost use Rattle.wire_model.specs.Following.{is_tree, tree_at, without_name};
ghost use Rattle.page_follow.specs.Places.{IsPlace};
ghost use Rattle.page_follow.specs.Views.{pages_of};

use page_tree::Tree;
use sig_base::Name;

/// A page that is mounted.
pub struct MountedPage {
    pub name: Name,
    pub tree: Tree,
}

impl Drop for MountedPage {
    fn drop(self) {
        let MountedPage { name: _, tree: _ } = self;
    }
}

// The place of the first page of a name.
fn first_place(pages: &[MountedPage], name: &Name) -> Option<usize>
    ensures { result ≡ position (λ p. bytes_eq name.now p.name) pages.now }
{
    pages.iter().position(|page| *name == page.name)
}

/// Where the first page of a name stands, if there is one.
pub(crate) fn place_of(pages: &[MountedPage], name: &Name) -> Option<usize>
    ensures { MatchOption result (tree_at name.now (pages_of pages.now) ≡ None) (IsPlace name.now pages.now) }
{
    let found = first_place(pages, name);
    found
}

// Whether one of the pages has a name.
fn is_among(pages: &[MountedPage], name: &Name) -> bool
    ensures { result ≡ list_any (λ p. bytes_eq name.now p.name) pages.now }
{
    pages.iter().any(|page| *name == page.name)
}

/// Whether there is a page of a name.
pub(crate) fn is_mounted(pages: &[MountedPage], name: &Name) -> bool
    ensures { result ≡ is_tree (tree_at name.now (pages_of pages.now)) }
{
    let among = is_among(pages, name);
    among
}

/// Drops the pages of a name.
pub(crate) fn unmount(pages: &mut Vec<MountedPage>, name: &Name)
    ensures { pages_of pages.new.items ≡ without_name name.now (pages_of pages.old.items) }
{
    pages.retain(|page| *name != page.name);
}
