// Pages are mounted, and a flush runs effects and brings the pages up to date.
ghost use Rattle.std.specs.Prelude.{◌≡◌, ◌+◌, ◌≤◌, ◌^◌, ◌++◌, ◌∷◌, [], ℕ, List, None, IfOk, IfErr, OnOk, length, map};
ghost use Rattle.signal_model.specs.Recipes.{Hosts};
ghost use Rattle.sig_base.specs.declared.limits.TheConstants.{MOST_PAGES};
ghost use Rattle.sig_effect.specs.declared.errors.EffectFault.TheVariants as fault;
ghost use Rattle.sig_effect.specs.Stores.{environment};
ghost use Rattle.effect_world.specs.Stores.{IsSound};
ghost use Rattle.live_cmd.specs.declared.command.Bare.TheVariants as bares;
ghost use Rattle.live_cmd.specs.declared.command.Command.TheVariants as command;
ghost use Rattle.live_model.specs.Machine.{after_turns, done, over_limit, reached};
ghost use Rattle.live_model.specs.declared.names.Kind.TheVariants as kind;
ghost use Rattle.live_model.specs.Names.{meaning_of};
ghost use Rattle.live_pages.specs.Updates.{AreShown, CanSettle, Settled};
ghost use Rattle.live_pages.specs.Views.{template_of};
ghost use Rattle.live_labels.specs.Views.{labels_of};
ghost use Rattle.live_core.specs.Consistency.{AreFine, IsReady, Leaves, Steps};
ghost use Rattle.live_core.specs.Doing.{CanAsk, CanDo, Did, DidFor};
ghost use Rattle.live_core.specs.Views.{plain_of};

use crate::answers::one;
use crate::faults::make_page;
use crate::machine::Machine;
use effect_turns::flush;
use live_entries::{Entry, Refusal};
use live_labels::{append, tell_for};
use live_linking::owner_of;
use live_pages::{Mounted, bring_all_up, keep_live, mount};
use sig_base::{Name, NoMemory, PageId};
use sig_effect::EffectFault;
use sig_host::{EqualsRule, Lent, Shelf};
use tpl_live::Page;

impl Machine {
    // Puts a page of a template last.
    fn add_page(
        &mut self,
        name: Name,
        number: PageId,
        template: u64,
        page: Page,
    ) -> Result<(), NoMemory>
        requires { meaning_of self.old.names name ≡ None }
        ensures names { OnOk result (self.new.names ≡ self.old.names ++ (name, record { kind = kind.Page; number = number }) ∷ []) }
        ensures labels { OnOk result (labels_of self.new.labels ≡ record (labels_of self.old.labels) { pages = self.old.labels.pages.items ++ name ∷ [] }) }
        ensures pages { OnOk result (self.new.pages.items
            ≡ self.old.pages.items ++ (record { name = name; number = number; template = template; page = page }) ∷ []) }
        ensures parts { self.new ≡ record (self.old) { names = self.new.names; labels = self.new.labels; pages = self.new.pages } }
    {
        self.pages.push(Mounted {
            name: name.copy()?,
            number,
            template,
            page,
        })?;
        self.name_page(name, number)?;
        Ok(())
    }

    /// Makes a page of a template, and tells it and the runs on the way.
    pub(crate) fn mount(
        &mut self,
        shelf: &mut Shelf,
        name: Name,
        template: &Name,
        inside: &Option<Name>,
    ) -> Result<Vec<Entry>, EffectFault>
        requires can { CanAsk (⟦<Shelf as Lent>⟧.asked shelf.old) self.old (⟦<Shelf as Lent>⟧.counted shelf.old) (2 ^ 125) }
        requires fine { AreFine self.old (command.Mount name template.now inside.now) }
        requires room { over_limit (plain_of [] self.old) (command.Mount name template.now inside.now) ≡ None }
        ensures did { (slacks : List ℕ) (count : ℕ) → IfOk result (λ es. Did (⟦<Shelf as Lent>⟧.asked shelf.old) (⟦<Shelf as Lent>⟧.asked shelf.new) count self.old self.new
            (λ hosts. ⟦<Shelf as Lent>⟧.answers hosts shelf.old) (λ hosts. ⟦<Shelf as Lent>⟧.answers hosts shelf.new) (⟦<Shelf as Lent>⟧.counted shelf.new) (2 ^ 80)
            es.items (λ hosts. done (environment hosts slacks) (plain_of (⟦<Shelf as Lent>⟧.asked shelf.old) self.old) (command.Mount name template.now inside.now))) }
        ensures memory { IfErr result (λ e. e ≡ fault.NoMemory) }
    {
        let _count = self.labels.pages.len();
        let template = self.names.number_of(template);
        let owner = owner_of(&self.names, inside);
        let mut told = Vec::new(self.alloc);
        let page = mount(
            &mut self.world,
            shelf,
            &self.templates,
            &self.labels,
            &mut self.journal,
            &name,
            template,
            &mut told,
        )?;
        let number = make_page(&mut self.world, owner)?;
        self.add_page(name, number, template, page)?;
        Ok(told)
    }

    // After the turns of a flush the pages are brought up to date, unless it is refused, and that is told. It asks for the parts of a machine that
    // is ready which the turns have left as they were.
    fn end_flush(&mut self, shelf: &mut Shelf, refused: bool) -> Result<Vec<Entry>, EffectFault>
        requires shown { AreShown (map template_of self.old.templates.items) self.old.pages.items }
        requires few { length self.old.pages.items ≤ MOST_PAGES }
        requires can { CanSettle (⟦<Shelf as Lent>⟧.asked shelf.old) self.old.world (⟦<Shelf as Lent>⟧.counted shelf.old) (2 ^ 125) }
        ensures steps { (hosts : Hosts) (slacks : List ℕ) → ⟦<Shelf as Lent>⟧.answers hosts shelf.old →
            IsSound hosts (⟦<Shelf as Lent>⟧.asked shelf.old) self.old.world →
            IfOk result (λ es. Steps hosts (⟦<Shelf as Lent>⟧.asked shelf.new) self.new es.items
            (after_turns (environment hosts slacks) refused (reached (plain_of (⟦<Shelf as Lent>⟧.asked shelf.old) self.old) []))) }
        ensures leaves { (hosts : Hosts) (count : ℕ) → IsReady self.old → ⟦<Shelf as Lent>⟧.answers hosts shelf.old →
            IsSound hosts (⟦<Shelf as Lent>⟧.asked shelf.old) self.old.world → OnOk result
            (Leaves (⟦<Shelf as Lent>⟧.asked shelf.old) (⟦<Shelf as Lent>⟧.asked shelf.new) count self.old self.new) }
        ensures settled { OnOk result (Settled (⟦<Shelf as Lent>⟧.asked shelf.old) (⟦<Shelf as Lent>⟧.asked shelf.new) self.old.world self.new.world
            (λ hosts. ⟦<Shelf as Lent>⟧.answers hosts shelf.old) (λ hosts. ⟦<Shelf as Lent>⟧.answers hosts shelf.new) (⟦<Shelf as Lent>⟧.counted shelf.new) (2 ^ 68) (2 ^ 75)) }
        ensures memory { IfErr result (λ e. e ≡ fault.NoMemory) }
    {
        if refused {
            let told = one(self.alloc, Entry::Error(Refusal::Turns))?;
            return Ok(told);
        }
        let pages = bring_all_up(
            self.alloc,
            &mut self.world,
            shelf,
            &self.labels,
            &mut self.journal,
            &mut self.pages,
            &mut self.notes,
        )?;
        Ok(pages)
    }

    /// Runs the effects that are due, in turns, and then brings the pages that live up to date. An effect that is due after the last turn
    /// makes it refused, and the pages are left as they were. Where no trace is asked for, nothing is told of the runs and the evaluated bodies of
    /// the turns.
    ///
    /// # Errors
    ///
    /// `NoMemory` alone.
    pub fn flush(
        &mut self,
        shelf: &mut Shelf,
        rules: &[EqualsRule],
        traced: bool,
    ) -> Result<Vec<Entry>, EffectFault>
        requires can { CanDo (⟦<Shelf as Lent>⟧.asked shelf.old) (length rules.now) self.old (⟦<Shelf as Lent>⟧.counted shelf.old) (2 ^ 124) }
        requires alone { self.old.batch ≡ None }
        ensures did { IfOk result (λ es. DidFor traced (⟦<Shelf as Lent>⟧.asked shelf.old) (⟦<Shelf as Lent>⟧.asked shelf.new) (length rules.now) self.old self.new
            (λ hosts. ⟦<Shelf as Lent>⟧.answers hosts shelf.old) (λ hosts. ⟦<Shelf as Lent>⟧.answers hosts shelf.new) (⟦<Shelf as Lent>⟧.counted shelf.new) (2 ^ 80)
            es.items (λ hosts. done (environment hosts (map (λ r. r.slack) rules.now)) (plain_of (⟦<Shelf as Lent>⟧.asked shelf.old) self.old) (command.Bare bares.Flush))) }
        ensures memory { IfErr result (λ e. e ≡ fault.NoMemory) }
    {
        self.events.clear();
        let end = flush(&mut self.world, shelf, rules, &mut self.events)?;
        let _count = self.events.len();
        let mut told = tell_for(
            self.alloc,
            &mut self.labels,
            &mut self.journal,
            &self.events,
            traced,
        )?;
        keep_live(&mut self.pages, &self.world.tables.pages);
        let news = self.end_flush(shelf, end.refused)?;
        append(&mut told, news)?;
        Ok(told)
    }
}
