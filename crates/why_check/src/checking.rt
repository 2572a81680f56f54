// The checker.
ghost use Rattle.std.specs.Prelude.{◌≡◌, ◌↔◌, Some, IsTrue, length};
ghost use Rattle.why_model.specs.Chains.{chain, links_from};
ghost use Rattle.live_why.specs.Views.{facts_of, past};

use crate::causes::{is_same, link_at};
use crate::looking::last_run;
use live_why::Fact;
use sig_base::NodeId;
use why_model::Link;

// Whether these are the links from the fact of a number on.
fn are_from(facts: &[Fact], start: usize, links: &[Link]) -> bool
    ensures { IsTrue result ↔ (links_from (past facts.now (length facts.now)) start ≡ links.now) }
{
    let mut number = start;
    for link in links {
        let Some(own) = link_at(facts, number) else {
            return false;
        };
        if !is_same(&own, link) {
            return false;
        }
        number = own.cause.moved_by() as usize;
    }
    link_at(facts, number).is_none()
}

/// Whether these links are the chain of a computed by these facts.
pub fn check(facts: &[Fact], id: NodeId, links: &[Link]) -> bool
    ensures { IsTrue result ↔ (chain (facts_of facts.now) id ≡ Some links.now) }
{
    let Some((number, _)) = last_run(facts, facts.len(), id) else {
        return false;
    };
    are_from(facts, number, links)
}
