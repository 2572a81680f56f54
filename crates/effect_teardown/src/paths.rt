// A path of nested effects leads to a body and its links.
ghost use Rattle.std.specs.Prelude.{◌≡◌, IfSome, IfNone, option_copied};
ghost use Rattle.sig_untrack.specs.Stated.{before, no_bodies};
ghost use Rattle.effect_tables.specs.Bodies.{links_before, no_links};
ghost use Rattle.effect_teardown.specs.Sites.{body_at, links_at};

use effect_tables::Links;
use sig_untrack::Body;

/// The body to which places of nested effects lead from a body. None where a body has no nested effect at a place.
pub fn body_at<'a>(body: &'a Body, path: &[usize]) -> Option<&'a Body>
    ensures some { IfSome (option_copied result) (λ b. body_at (before body.now no_bodies) 0 path.now ≡ before b no_bodies) }
    ensures none { IfNone (option_copied result) (body_at (before body.now no_bodies) 0 path.now ≡ no_bodies) }
{
    let Some((first, rest)) = path.split_first() else {
        return Some(body);
    };
    let Some(inner) = body.effects.get(*first) else {
        return None;
    };
    body_at(inner, rest)
}

/// The links to which places of nested effects lead from links. None where there are no links at a place.
pub fn links_at<'a>(links: &'a Links, path: &[usize]) -> Option<&'a Links>
    ensures some { IfSome (option_copied result) (λ l. links_at (links_before links.now no_links) 0 path.now ≡ links_before l no_links) }
    ensures none { IfNone (option_copied result) (links_at (links_before links.now no_links) 0 path.now ≡ no_links) }
{
    let Some((first, rest)) = path.split_first() else {
        return Some(links);
    };
    let Some(inner) = links.inner.get(*first) else {
        return None;
    };
    links_at(inner, rest)
}
