// Pages are made of templates: mounted, or shown from scratch.
ghost use Rattle.std.specs.Prelude.{◌≡◌, ◌<◌, ◌^◌, ℕ, List, IfOk, OnOk, length, map};
ghost use Rattle.signal_model.specs.Recipes.{Hosts};
ghost use Rattle.page_ops.specs.Ops.{op_of};
ghost use Rattle.sig_effect.specs.Stores.{environment};
ghost use Rattle.effect_world.specs.Stores.{IsSound};
ghost use Rattle.tpl_blocks.specs.Blocks.{lines_of};
ghost use Rattle.tpl_live.specs.Pages.{page_in, IsStanding, Stands};
ghost use Rattle.tpl_live.specs.Contents.{standing};
ghost use Rattle.tpl_model.specs.Laws.{IsTemplate};
ghost use Rattle.live_labels.specs.Views.{labels_of};
ghost use Rattle.live_model.specs.Pages.{template_in};
ghost use Rattle.live_pages.specs.Updates.{AreTemplates, CanSettle, IsFresh, IsFreshTree, IsMounted, IsScratched, Settled};
ghost use Rattle.live_pages.specs.Views.{template_of};

use crate::lookup::template_among;
use crate::mounted::LinkedTemplate;
use crate::report::{tell_ops, tell_page, tree_html};
use effect_world::World;
use live_entries::{Entry, PageBytes};
use live_labels::{Labels, tell_runs};
use live_why::Recorder;
use page_ops::Op;
use page_tree::Tree;
use sig_base::{Name, NoMemory, NodeId};
use sig_host::{Lent, Shelf};
use std::alloc::Global;
use tpl_live::{Page, tree_from_scratch};

// The same signals in a list of its own.
fn copied(alloc: Global, signals: &[NodeId]) -> Result<Vec<NodeId>, NoMemory>
    ensures { IfOk result (λ copy. copy.items ≡ signals.now) }
{
    let mut copy = Vec::new(alloc);
    copy.extend_from_slice(signals)?;
    Ok(copy)
}

// A page of a template that shows it on the outcomes of now, with the operations that make it; the runs on the way are told.
fn fresh(
    world: &mut World,
    shelf: &mut Shelf,
    linked: &LinkedTemplate,
    labels: &Labels,
    journal: &mut Option<Recorder>,
    told: &mut Vec<Entry>,
) -> Result<(Box<Page>, Vec<Op>), NoMemory>
    requires template { IsTemplate (lines_of linked.now.template) }
    requires can { CanSettle (⟦<Shelf as Lent>⟧.asked shelf.old) world.old (⟦<Shelf as Lent>⟧.counted shelf.old) (2 ^ 126) }
    ensures page { (hosts : Hosts) (slacks : List ℕ) → ⟦<Shelf as Lent>⟧.answers hosts shelf.old →
        IsSound hosts (⟦<Shelf as Lent>⟧.asked shelf.old) world.old →
        IfOk result (λ made. IsFresh (environment hosts slacks) (labels_of labels.now) (template_of linked.now) (⟦<Shelf as Lent>⟧.asked shelf.old)
        (⟦<Shelf as Lent>⟧.asked shelf.new) world.old world.new (page_in (standing made.0.value)) (map op_of made.1.items) told.old.items told.new.items journal.old journal.new) }
    ensures stands { IfOk result (λ made. Stands (lines_of linked.now.template) linked.now.links.items (standing made.0.value)) }
    ensures standing { IfOk result (λ made. IsStanding (standing made.0.value)) }
    ensures settled { OnOk result (Settled (⟦<Shelf as Lent>⟧.asked shelf.old) (⟦<Shelf as Lent>⟧.asked shelf.new) world.old world.new
        (λ hosts. ⟦<Shelf as Lent>⟧.answers hosts shelf.old) (λ hosts. ⟦<Shelf as Lent>⟧.answers hosts shelf.new) (⟦<Shelf as Lent>⟧.counted shelf.new) (2 ^ 64) (2 ^ 71)) }
{
    let alloc = *told.allocator();
    let mut notes = Vec::new(alloc);
    let links = copied(alloc, &linked.links)?;
    let (page, ops) = Page::mount(&mut world.graph, shelf, &linked.template, links, &mut notes)?;
    let page = Box::new(alloc, page)?;
    let _count = notes.len();
    tell_runs(told, &labels.signals, journal, &notes)?;
    Ok((page, ops))
}

/// A page of a template that shows it on the outcomes of now, and the entries of its making: the runs on the way, the operations that lead
/// to it from a page without nodes, and the page. The template is one of those that are kept.
///
/// # Errors
///
/// After `NoMemory` world and shelf may only be dropped.
pub fn mount(
    world: &mut World,
    shelf: &mut Shelf,
    templates: &[LinkedTemplate],
    labels: &Labels,
    journal: &mut Option<Recorder>,
    name: &Name,
    template: u64,
    told: &mut Vec<Entry>,
) -> Result<Page, NoMemory>
    requires known { template < length templates.now }
    requires templates { AreTemplates templates.now }
    requires can { CanSettle (⟦<Shelf as Lent>⟧.asked shelf.old) world.old (⟦<Shelf as Lent>⟧.counted shelf.old) (2 ^ 126) }
    ensures page { (hosts : Hosts) (slacks : List ℕ) → ⟦<Shelf as Lent>⟧.answers hosts shelf.old →
        IsSound hosts (⟦<Shelf as Lent>⟧.asked shelf.old) world.old →
        IfOk result (λ page. IsMounted (environment hosts slacks) (labels_of labels.now) (map template_of templates.now) (⟦<Shelf as Lent>⟧.asked shelf.old)
        (⟦<Shelf as Lent>⟧.asked shelf.new) world.old world.new name.now template (page_in (standing page)) told.old.items told.new.items journal.old journal.new) }
    ensures stands { IfOk result (λ page. Stands (template_in (map template_of templates.now) template).lines
        (template_in (map template_of templates.now) template).links (standing page)) }
    ensures settled { OnOk result (Settled (⟦<Shelf as Lent>⟧.asked shelf.old) (⟦<Shelf as Lent>⟧.asked shelf.new) world.old world.new
        (λ hosts. ⟦<Shelf as Lent>⟧.answers hosts shelf.old) (λ hosts. ⟦<Shelf as Lent>⟧.answers hosts shelf.new) (⟦<Shelf as Lent>⟧.counted shelf.new) (2 ^ 64) (2 ^ 71)) }
{
    let linked = template_among(templates, template);
    let (page, ops) = fresh(world, shelf, linked, labels, journal, told)?;
    tell_ops(told, name, ops)?;
    tell_page(told, name, &page)?;
    Ok(Box::into_inner(page))
}

// The tree of what a template shows from scratch on the outcomes of now; the runs on the way are told.
fn fresh_tree(
    world: &mut World,
    shelf: &mut Shelf,
    linked: &LinkedTemplate,
    labels: &Labels,
    journal: &mut Option<Recorder>,
    told: &mut Vec<Entry>,
) -> Result<Tree, NoMemory>
    requires template { IsTemplate (lines_of linked.now.template) }
    requires can { CanSettle (⟦<Shelf as Lent>⟧.asked shelf.old) world.old (⟦<Shelf as Lent>⟧.counted shelf.old) (2 ^ 126) }
    ensures tree { (hosts : Hosts) (slacks : List ℕ) → ⟦<Shelf as Lent>⟧.answers hosts shelf.old →
        IsSound hosts (⟦<Shelf as Lent>⟧.asked shelf.old) world.old →
        IfOk result (λ tree. IsFreshTree (environment hosts slacks) (labels_of labels.now) (template_of linked.now) (⟦<Shelf as Lent>⟧.asked shelf.old)
        (⟦<Shelf as Lent>⟧.asked shelf.new) world.old world.new tree told.old.items told.new.items journal.old journal.new) }
    ensures settled { OnOk result (Settled (⟦<Shelf as Lent>⟧.asked shelf.old) (⟦<Shelf as Lent>⟧.asked shelf.new) world.old world.new
        (λ hosts. ⟦<Shelf as Lent>⟧.answers hosts shelf.old) (λ hosts. ⟦<Shelf as Lent>⟧.answers hosts shelf.new) (⟦<Shelf as Lent>⟧.counted shelf.new) (2 ^ 64) (2 ^ 71)) }
{
    let mut notes = Vec::new(*told.allocator());
    let tree = tree_from_scratch(
        &mut world.graph,
        shelf,
        &linked.template,
        &linked.links,
        &mut notes,
    )?;
    let _count = notes.len();
    tell_runs(told, &labels.signals, journal, &notes)?;
    Ok(tree)
}

/// The HTML of what a template shows from scratch on the outcomes of now; the runs on the way are told. No page is made for it. The template is
/// one of those that are kept.
///
/// # Errors
///
/// After `NoMemory` world and shelf may only be dropped.
pub fn scratch(
    world: &mut World,
    shelf: &mut Shelf,
    templates: &[LinkedTemplate],
    labels: &Labels,
    journal: &mut Option<Recorder>,
    template: u64,
    told: &mut Vec<Entry>,
) -> Result<PageBytes, NoMemory>
    requires known { template < length templates.now }
    requires templates { AreTemplates templates.now }
    requires can { CanSettle (⟦<Shelf as Lent>⟧.asked shelf.old) world.old (⟦<Shelf as Lent>⟧.counted shelf.old) (2 ^ 126) }
    ensures html { (hosts : Hosts) (slacks : List ℕ) → ⟦<Shelf as Lent>⟧.answers hosts shelf.old →
        IsSound hosts (⟦<Shelf as Lent>⟧.asked shelf.old) world.old →
        IfOk result (λ html. IsScratched (environment hosts slacks) (labels_of labels.now) (map template_of templates.now) (⟦<Shelf as Lent>⟧.asked shelf.old)
        (⟦<Shelf as Lent>⟧.asked shelf.new) world.old world.new template html told.old.items told.new.items journal.old journal.new) }
    ensures settled { OnOk result (Settled (⟦<Shelf as Lent>⟧.asked shelf.old) (⟦<Shelf as Lent>⟧.asked shelf.new) world.old world.new
        (λ hosts. ⟦<Shelf as Lent>⟧.answers hosts shelf.old) (λ hosts. ⟦<Shelf as Lent>⟧.answers hosts shelf.new) (⟦<Shelf as Lent>⟧.counted shelf.new) (2 ^ 64) (2 ^ 71)) }
{
    let linked = template_among(templates, template);
    let tree = fresh_tree(world, shelf, linked, labels, journal, told)?;
    let html = tree_html(*told.allocator(), &tree)?;
    Ok(html)
}
