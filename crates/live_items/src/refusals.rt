// Why commands are refused, in this order: that a batch is open or none is, the names, the places of host formulas and rules, what the rows of a
// list or the journal don't allow or isn't there on a page or among the lines of a template, what there would be too much of, and a signal that isn't
// watched.
ghost use Rattle.std.specs.Prelude.{◌≡◌, ◌∷◌, [], ℕ, Bool, List, None, Some, IfOk, if◌then◌else◌, is_some, length, map, slice_get};
ghost use Rattle.std.specs.List.{filter};
ghost use Rattle.std.specs.Option.{option_or};
ghost use Rattle.signal_model.specs.Memos.{memo_of};
ghost use Rattle.signal_model.specs.Sound.{kept_outcome};
ghost use Rattle.effect_model.specs.Watchers.{watches};
ghost use Rattle.effect_tables.specs.Placed.{effect_of};
ghost use Rattle.effect_world.specs.Wholes.{whole_of};
ghost use Rattle.sig_effect.specs.Wholes.{host_states};
ghost use Rattle.sig_host.specs.Hosts.{HostPlace};
ghost use Rattle.effect_model.specs.declared.limits.TheConstants.{MOST_EFFECTS};
ghost use Rattle.live_entries.specs.declared.refusal.LimitWord.TheVariants as limit;
ghost use Rattle.live_entries.specs.declared.refusal.Refusal.TheVariants as refusal;
ghost use Rattle.live_labels.specs.Views.{labels_of};
ghost use Rattle.live_model.specs.Handlers.{has_node};
ghost use Rattle.live_model.specs.Journals.{is_full};
ghost use Rattle.live_model.specs.Labels.{is_named, label_at};
ghost use Rattle.live_model.specs.Machine.{batch_refusal, can_tell_why, is_done_in_batch, is_ending, is_late};
ghost use Rattle.live_model.specs.Machine.{body_refusal, host_refusal, later_refusal, name_refusal};
ghost use Rattle.live_model.specs.Machine.{one_too_many, outside_refusal, over_limit, place_refusal, refusal_of};
ghost use Rattle.live_model.specs.Machine.{page_at, row_refusal, rule_refusal, taken_refusal, unwatch_refusal};
ghost use Rattle.live_model.specs.Names.{first_refusal, first_within, number_of};
ghost use Rattle.live_model.specs.Pages.{tag_in, template_in};
ghost use Rattle.live_model.specs.Rows.{edit_refusal, rows_at};
ghost use Rattle.live_model.specs.Uses.{hosts_of_body, uses_of_body};
ghost use Rattle.live_core.specs.Views.{batch_of, plain_of};
ghost use Rattle.live_pages.specs.Updates.{AreStanding};
ghost use Rattle.live_pages.specs.Views.{page_of, template_of};
ghost use Rattle.page_model.specs.Pages.{tree_of};
ghost use Rattle.page_model.specs.Replay.{below_root};
ghost use Rattle.tpl_live.specs.Contents.{standing};
ghost use Rattle.tpl_live.specs.Pages.{IsStanding};

use effect_model::{MOST_EFFECTS, MOST_OWNERS, MOST_WATCHERS};
use effect_world::World;
use event_model::MOST_HANDLERS;
use live_cmd::{Bare, Command, EffectBody, RowEdit, SourceText, Verb};
use live_core::{Machine, edit_refusal};
use live_entries::{LimitWord, Refusal};
use live_labels::named_count;
use live_model::{Kind, Need};
use live_pages::{LinkedTemplate, Mounted, page_among, template_among};
use live_uses::{Use, hosts_of_body, need_of, uses_of, uses_of_body};
use live_why::Recorder;
use sig_base::{MOST_NODES, MOST_PAGES, MOST_TEMPLATES, Name, NoMemory, NodeId, PageId, WatcherId};
use sig_host::{EqualsRule, Lent, Shelf};
use std::alloc::Global;

// Whether a command ends a batch.
fn is_ending(command: &Command) -> bool
    ensures { result ≡ is_ending command.now }
{
    match command {
        Command::Bare(Bare::Commit) | Command::Bare(Bare::Abort) => true,
        _ => false,
    }
}

// Whether it is done while a batch is open: what changes a value, what shows something, and what ends it.
fn is_done_in_batch(command: &Command) -> bool
    ensures { result ≡ is_done_in_batch command.now }
{
    match command {
        Command::Set { .. } | Command::Edit { .. } => true,
        Command::Named { verb, .. } => match verb {
            Verb::Dispose | Verb::Why => false,
            _ => true,
        },
        _ => is_ending(command),
    }
}

// The refusal of an end where no batch is open, and of what isn't done while one is.
fn batch_refusal(machine: &Machine, command: &Command) -> Option<Refusal>
    ensures { result ≡ batch_refusal (batch_of machine.now.batch) command.now }
{
    match &machine.batch {
        Some(_) => {
            if is_done_in_batch(command) {
                None
            } else {
                Some(Refusal::BatchOpen)
            }
        }
        None => {
            if is_ending(command) {
                Some(Refusal::NoBatch)
            } else {
                None
            }
        }
    }
}

// The refusal of one more than the most.
fn one_too_many(most: usize, count: usize, limit: LimitWord) -> Option<Refusal>
    ensures { result ≡ one_too_many most count limit }
{
    if count < most {
        None
    } else {
        Some(Refusal::Limit(limit))
    }
}

// Whether a signal was made, or a journal was begun.
fn is_late(machine: &Machine) -> bool
    ensures { (asked : List HostPlace) → result ≡ is_late (plain_of asked machine.now) }
{
    0 < machine.world.graph.made() || machine.journal.is_some()
}

// The refusal of a journal that would begin after a signal was made, or after another.
fn late_refusal(machine: &Machine) -> Option<Refusal>
    ensures { (asked : List HostPlace) → result ≡ (if is_late (plain_of asked machine.now) then Some refusal.Late else None) }
{
    if is_late(machine) {
        Some(Refusal::Late)
    } else {
        None
    }
}

// Whether a computed has run.
fn has_run(world: &World, id: NodeId) -> bool
    ensures { result ≡ is_some (kept_outcome (memo_of world.now.graph.state.memos id)) }
{
    world.graph.kept(id).is_some()
}

// Whether it can be told why a computed ran: a journal was begun, and the computed has run.
fn can_tell_why(machine: &Machine, id: NodeId) -> bool
    ensures { (asked : List HostPlace) → result ≡ can_tell_why (plain_of asked machine.now) id }
{
    machine.journal.is_some() && has_run(&machine.world, id)
}

// The refusal of a computed of which it can't be told why it ran.
fn run_refusal(machine: &Machine, name: &Name) -> Result<Option<Refusal>, NoMemory>
    ensures { (asked : List HostPlace) → IfOk result (λ r. r
        ≡ (if can_tell_why (plain_of asked machine.now) (number_of machine.now.names name.now) then None else Some (refusal.NoRun name.now))) }
{
    let computed = NodeId::of(machine.names.number_of(name));
    if can_tell_why(machine, computed) {
        return Ok(None);
    }
    Ok(Some(Refusal::NoRun(name.copy()?)))
}

// The refusal of a host formula that isn't there, or that is used or was dropped.
fn taken_refusal(world: &World, shelf: &Shelf, place: u64) -> Option<Refusal>
    ensures { result ≡ taken_refusal place (slice_get (whole_of (⟦<Shelf as Lent>⟧.asked shelf.now) world.now).host_states place) }
{
    if shelf.len() <= place as usize {
        return Some(Refusal::HostPlace(place));
    }
    if world.is_free(shelf, place as usize) {
        None
    } else {
        Some(Refusal::HostTaken(place))
    }
}

// So it is for what a computed is computed by.
fn host_refusal(world: &World, shelf: &Shelf, source: &SourceText) -> Option<Refusal>
    ensures { result ≡ host_refusal (whole_of (⟦<Shelf as Lent>⟧.asked shelf.now) world.now) source.now }
{
    match source {
        SourceText::Formula(_) => None,
        SourceText::Host(place, _) => taken_refusal(world, shelf, *place),
    }
}

// The refusal of an equality rule that isn't there.
fn rule_refusal(rules: &[EqualsRule], equals: Option<u64>) -> Option<Refusal>
    ensures { result ≡ rule_refusal (map (λ r. r.slack) rules.now) equals }
{
    match equals {
        None => None,
        Some(place) => {
            if (place as usize) < rules.len() {
                None
            } else {
                Some(Refusal::RulePlace(place))
            }
        }
    }
}

// The refusal of the first of these places that is past the last host formula.
fn outside_refusal(count: usize, places: &[u64]) -> Option<Refusal>
    ensures { result ≡ outside_refusal count places.now }
{
    for place in places {
        if count <= *place as usize {
            return Some(Refusal::HostPlace(*place));
        }
    }
    None
}

// The refusal of a host formula in a body that isn't there.
fn hosts_refusal(
    alloc: Global,
    count: usize,
    body: &EffectBody,
) -> Result<Option<Refusal>, NoMemory>
    ensures { IfOk result (λ r. r ≡ outside_refusal count (hosts_of_body body.now)) }
{
    let places = hosts_of_body(alloc, body.as_body())?;
    Ok(outside_refusal(count, &places))
}

// So it is for those that aren't on the shelf.
fn unshelved_refusal(
    alloc: Global,
    shelf: &Shelf,
    body: &EffectBody,
) -> Result<Option<Refusal>, NoMemory>
    ensures { (uses : ℕ → Bool) → IfOk result (λ r. r ≡ outside_refusal (length (host_states uses 0 (⟦<Shelf as Lent>⟧.asked shelf.now))) (hosts_of_body body.now)) }
{
    let refusal = hosts_refusal(alloc, shelf.len(), body)?;
    Ok(refusal)
}

// The refusal of the place of a host formula or of a rule.
fn place_refusal(
    alloc: Global,
    world: &World,
    shelf: &Shelf,
    rules: &[EqualsRule],
    command: &Command,
) -> Result<Option<Refusal>, NoMemory>
    ensures { IfOk result (λ r. r ≡ place_refusal (map (λ r. r.slack) rules.now)
        (whole_of (⟦<Shelf as Lent>⟧.asked shelf.now) world.now) command.now) }
{
    match command {
        Command::Cell { equals, .. } => Ok(rule_refusal(rules, *equals)),
        Command::Computed { source, .. } => Ok(host_refusal(world, shelf, source)),
        Command::Rewire { source, .. } => Ok(host_refusal(world, shelf, source)),
        Command::Effect { body, .. } => {
            let refusal = unshelved_refusal(alloc, shelf, body)?;
            Ok(refusal)
        }
        _ => Ok(None),
    }
}

// The refusal of the first name in the body of an effect that has one.
fn within_refusal(
    machine: &Machine,
    name: &Name,
    body: &EffectBody,
) -> Result<Option<Refusal>, NoMemory>
    ensures { (asked : List HostPlace) → IfOk result (λ r. r ≡ first_within (whole_of asked machine.now.world) machine.now.names name.now (uses_of_body body.now)) }
{
    let uses = uses_of_body(machine.alloc, body.as_body())?;
    let refusal = machine.names.first_within(&machine.world, name, &uses)?;
    Ok(refusal)
}

// The refusal of a name in the body of an effect, if the command makes one.
fn body_refusal(machine: &Machine, command: &Command) -> Result<Option<Refusal>, NoMemory>
    ensures { (asked : List HostPlace) → IfOk result (λ r. r ≡ body_refusal (plain_of asked machine.now) command.now) }
{
    match command {
        Command::Effect { name, body, .. } => {
            let refusal = within_refusal(machine, name, body)?;
            Ok(refusal)
        }
        _ => Ok(None),
    }
}

// The refusal of the name of a command that names nothing else.
fn only_refusal(machine: &Machine, name: &Name, need: Need) -> Result<Option<Refusal>, NoMemory>
    ensures { (asked : List HostPlace) → IfOk result (λ r. r
        ≡ option_or (first_refusal (whole_of asked machine.now.world) machine.now.names ((name.now, need) ∷ [])) None) }
{
    let used = Use { name, need };
    let refusal = machine.names.refusal_of(&machine.world, &used)?;
    Ok(refusal)
}

// The refusal of the first of the listed names of a command that has one.
fn listed_refusal(machine: &Machine, command: &Command) -> Result<Option<Refusal>, NoMemory>
    ensures { (asked : List HostPlace) → IfOk result (λ r. r ≡ name_refusal (plain_of asked machine.now) command.now) }
{
    let uses = uses_of(machine.alloc, command)?;
    if let Some(refusal) = machine.names.first_refusal(&machine.world, &uses)? {
        return Ok(Some(refusal));
    }
    let refusal = body_refusal(machine, command)?;
    Ok(refusal)
}

// The refusal of the first name that has one. What the commonest commands name is judged without a list.
fn name_refusal(machine: &Machine, command: &Command) -> Result<Option<Refusal>, NoMemory>
    ensures { (asked : List HostPlace) → IfOk result (λ r. r ≡ name_refusal (plain_of asked machine.now) command.now) }
{
    match command {
        Command::Set { name, .. } => {
            let refusal = only_refusal(machine, name, Need::Of(Kind::Cell))?;
            Ok(refusal)
        }
        Command::Edit { name, .. } => {
            let refusal = only_refusal(machine, name, Need::Of(Kind::List))?;
            Ok(refusal)
        }
        Command::Named { verb, name } => {
            let refusal = only_refusal(machine, name, need_of(*verb))?;
            Ok(refusal)
        }
        _ => {
            let refusal = listed_refusal(machine, command)?;
            Ok(refusal)
        }
    }
}

// The refusal of an edit that the rows of a list don't allow.
fn rows_refusal(machine: &Machine, name: &Name, edit: &RowEdit) -> Result<Option<Refusal>, NoMemory>
    ensures { IfOk result (λ r. r ≡ edit_refusal edit.now (rows_at machine.now.world.graph.state.signals (number_of machine.now.names name.now))) }
{
    let list = NodeId::of(machine.names.number_of(name));
    let refusal = edit_refusal(machine.alloc, &machine.world, list, edit)?;
    Ok(refusal)
}

// Whether a page has a node below its root.
fn has_node(page: &Mounted, node: u64) -> bool
    requires { IsStanding (standing page.now.page) }
    ensures { result ≡ below_root node (tree_of (page_of page.now).content) }
{
    page.page.parent_of(node).is_some()
}

// The refusal of a node that isn't on a page, or is its root.
fn node_refusal(machine: &Machine, page: &Name, node: u64) -> Option<Refusal>
    requires { AreStanding machine.now.pages.items }
    ensures { result ≡ (if has_node (page_at (map page_of machine.now.pages.items) (number_of machine.now.names page.now)) node
        then None else Some (refusal.NoNode node)) }
{
    let number = PageId::of(machine.names.number_of(page));
    let Some(shown) = page_among(&machine.pages, number) else {
        return Some(Refusal::NoNode(node));
    };
    if has_node(shown, node) {
        return None;
    }
    Some(Refusal::NoNode(node))
}

// Whether the line of a template makes an element; that of none doesn't.
fn is_tag_in(templates: &[LinkedTemplate], template: u64, line: usize) -> bool
    ensures { result ≡ tag_in (template_in (map template_of templates.now) template) line }
{
    if template >= templates.len() as u64 {
        return false;
    }
    template_among(templates, template).template.tag_at(line)
}

// The refusal of a line of a template that makes no element.
fn line_refusal(machine: &Machine, template: &Name, line: u64) -> Option<Refusal>
    ensures { result ≡ (if tag_in (template_in (map template_of machine.now.templates.items) (number_of machine.now.names template.now)) line
        then None else Some (refusal.NoLine line)) }
{
    let number = machine.names.number_of(template);
    if is_tag_in(&machine.templates, number, line as usize) {
        return None;
    }
    Some(Refusal::NoLine(line))
}

// The refusal of what a command doesn't find, rows that don't allow an edit, a node of a page, a line of a template, and of what the journal doesn't allow.
fn row_refusal(machine: &Machine, command: &Command) -> Result<Option<Refusal>, NoMemory>
    requires { AreStanding machine.now.pages.items }
    ensures { (asked : List HostPlace) → IfOk result (λ r. r ≡ row_refusal (plain_of asked machine.now) command.now) }
{
    match command {
        Command::Fire { page, node, .. } => Ok(node_refusal(machine, page, *node)),
        Command::On {
            template,
            place,
            ..
        } => Ok(line_refusal(machine, template, *place)),
        Command::Edit { name, edit } => {
            let refusal = rows_refusal(machine, name, edit)?;
            Ok(refusal)
        }
        Command::Bare(bare) => match bare {
            Bare::Record => Ok(late_refusal(machine)),
            _ => Ok(None),
        },
        Command::Named { verb, name } => match verb {
            Verb::Why => {
                let refusal = run_refusal(machine, name)?;
                Ok(refusal)
            }
            _ => Ok(None),
        },
        _ => Ok(None),
    }
}

// How many effects live that a command made.
fn named_effects(machine: &Machine) -> usize
    ensures { result ≡ length (filter (λ x. is_named (label_at (labels_of machine.now.labels).effects x.number)) (map effect_of machine.now.world.tables.effects.items)) }
{
    named_count(&machine.labels.effects, &machine.world.tables.effects)
}

// The refusal of one effect more than the most that a command made. Where fewer live in all none is looked up.
fn effect_refusal(machine: &Machine) -> Option<Refusal>
    ensures { result ≡ one_too_many MOST_EFFECTS (length (filter (λ x. is_named (label_at (labels_of machine.now.labels).effects x.number))
        (map effect_of machine.now.world.tables.effects.items))) limit.Effects }
{
    if machine.world.tables.effects.len() < MOST_EFFECTS {
        return None;
    }
    one_too_many(MOST_EFFECTS, named_effects(machine), LimitWord::Effects)
}

// The refusal of what a full journal may not tell.
fn full_refusal(journal: &Option<Recorder>) -> Option<Refusal>
    ensures { result ≡ (if is_full journal.now then Some (refusal.Limit limit.Facts) else None) }
{
    match journal {
        None => None,
        Some(recorder) => {
            if recorder.is_full() {
                Some(Refusal::Limit(LimitWord::Facts))
            } else {
                None
            }
        }
    }
}

// The refusal of what there would be too much of.
fn over_limit(machine: &Machine, command: &Command) -> Option<Refusal>
    ensures { (asked : List HostPlace) → result ≡ over_limit (plain_of asked machine.now) command.now }
{
    match command {
        Command::Cell { .. } | Command::List { .. } | Command::Computed { .. } => {
            one_too_many(MOST_NODES, machine.world.graph.live(), LimitWord::Nodes)
        }
        Command::Owner { .. } => one_too_many(
            MOST_OWNERS,
            machine.world.tables.owners.live(),
            LimitWord::Owners,
        ),
        Command::Effect { .. } => effect_refusal(machine),
        Command::Watcher { .. } => {
            one_too_many(
                MOST_WATCHERS,
                machine.world.watchers.live(),
                LimitWord::Watchers,
            )
        }
        Command::On { .. } => {
            one_too_many(MOST_HANDLERS, machine.handlers.count(), LimitWord::Handlers)
        }
        Command::Template { .. } => {
            one_too_many(
                MOST_TEMPLATES,
                machine.templates.len(),
                LimitWord::Templates,
            )
        }
        Command::Mount { .. } => {
            one_too_many(
                MOST_PAGES,
                machine.world.tables.pages.len(),
                LimitWord::Pages,
            )
        }
        Command::Named { verb, .. } => match verb {
            Verb::Why => full_refusal(&machine.journal),
            _ => None,
        },
        _ => None,
    }
}

// Whether a watcher watches a signal.
fn is_watched(machine: &Machine, watcher: &Name, signal: &Name) -> bool
    ensures { result ≡ watches machine.now.world.watchers.watchers (number_of machine.now.names watcher.now) (number_of machine.now.names signal.now) }
{
    let watcher = WatcherId::of(machine.names.number_of(watcher));
    let signal = NodeId::of(machine.names.number_of(signal));
    machine.world.watchers.watches(watcher, signal)
}

// The refusal of a signal that isn't watched.
fn unwatch_refusal(machine: &Machine, command: &Command) -> Result<Option<Refusal>, NoMemory>
    ensures { (asked : List HostPlace) → IfOk result (λ r. r ≡ unwatch_refusal (plain_of asked machine.now) command.now) }
{
    match command {
        Command::Unwatch { name, signal } => {
            if is_watched(machine, name, signal) {
                return Ok(None);
            }
            Ok(Some(Refusal::NotWatched(signal.copy()?)))
        }
        _ => Ok(None),
    }
}

// The refusal of what stands behind the names, place by place.
fn behind_refusal(
    machine: &Machine,
    shelf: &Shelf,
    rules: &[EqualsRule],
    command: &Command,
) -> Result<Option<Refusal>, NoMemory>
    requires { AreStanding machine.now.pages.items }
    ensures { IfOk result (λ r. r ≡ later_refusal (map (λ r. r.slack) rules.now)
        (plain_of (⟦<Shelf as Lent>⟧.asked shelf.now) machine.now) command.now) }
{
    if let Some(refusal) = place_refusal(machine.alloc, &machine.world, shelf, rules, command)? {
        return Ok(Some(refusal));
    }
    if let Some(refusal) = row_refusal(machine, command)? {
        return Ok(Some(refusal));
    }
    if let Some(refusal) = over_limit(machine, command) {
        return Ok(Some(refusal));
    }
    let refusal = unwatch_refusal(machine, command)?;
    Ok(refusal)
}

// The refusal of what stands behind the names. Nothing does behind the name of a set or a get.
fn later_refusal(
    machine: &Machine,
    shelf: &Shelf,
    rules: &[EqualsRule],
    command: &Command,
) -> Result<Option<Refusal>, NoMemory>
    requires { AreStanding machine.now.pages.items }
    ensures { IfOk result (λ r. r ≡ later_refusal (map (λ r. r.slack) rules.now)
        (plain_of (⟦<Shelf as Lent>⟧.asked shelf.now) machine.now) command.now) }
{
    match command {
        Command::Set { .. }
        | Command::Named {
            verb: Verb::Get,
            ..
        } => Ok(None),
        _ => {
            let refusal = behind_refusal(machine, shelf, rules, command)?;
            Ok(refusal)
        }
    }
}

/// Why a command is refused, if it is.
pub(crate) fn refusal_of(
    machine: &Machine,
    shelf: &Shelf,
    rules: &[EqualsRule],
    command: &Command,
) -> Result<Option<Refusal>, NoMemory>
    requires { AreStanding machine.now.pages.items }
    ensures { IfOk result (λ r. r ≡ refusal_of (map (λ r. r.slack) rules.now)
        (plain_of (⟦<Shelf as Lent>⟧.asked shelf.now) machine.now) command.now) }
{
    if let Some(refusal) = batch_refusal(machine, command) {
        return Ok(Some(refusal));
    }
    if let Some(refusal) = name_refusal(machine, command)? {
        return Ok(Some(refusal));
    }
    let refusal = later_refusal(machine, shelf, rules, command)?;
    Ok(refusal)
}
