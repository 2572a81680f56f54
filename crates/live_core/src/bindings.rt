// What is made gets its name.
ghost use Rattle.std.specs.Prelude.{◌≡◌, ◌++◌, ◌∷◌, [], None, Some, OnOk};
ghost use Rattle.live_model.specs.declared.names.Kind.TheVariants as kind;
ghost use Rattle.live_model.specs.Labels.{named, with_label};
ghost use Rattle.live_model.specs.Names.{meaning_of};
ghost use Rattle.live_labels.specs.Views.{labels_of};
ghost use Rattle.live_core.specs.Parts.{KeepsParts};

use crate::machine::Machine;
use live_entries::Label;
use live_labels::label_effect;
use live_model::Kind;
use sig_base::{EffectId, Name, NoMemory, NodeId, OwnerId, PageId, WatcherId};

impl Machine {
    /// Gives the next signal a name.
    pub(crate) fn name_signal(&mut self, name: Name, kind: Kind, id: NodeId) -> Result<(), NoMemory>
        requires { meaning_of self.old.names name ≡ None }
        ensures names { OnOk result (self.new.names ≡ self.old.names ++ (name, record { kind = kind; number = id }) ∷ []) }
        ensures labels { OnOk result (labels_of self.new.labels ≡ record (labels_of self.old.labels) { signals = self.old.labels.signals.items ++ name ∷ [] }) }
        ensures parts { KeepsParts self.old self.new }
    {
        self.labels.signals.push(name.copy()?)?;
        self.names.make(name, kind, id.number())?;
        Ok(())
    }

    /// Gives the next owner a name.
    pub(crate) fn name_owner(&mut self, name: Name, id: OwnerId) -> Result<(), NoMemory>
        requires { meaning_of self.old.names name ≡ None }
        ensures names { OnOk result (self.new.names ≡ self.old.names ++ (name, record { kind = kind.Owner; number = id }) ∷ []) }
        ensures labels { OnOk result (labels_of self.new.labels ≡ record (labels_of self.old.labels) { owners = self.old.labels.owners.items ++ name ∷ [] }) }
        ensures parts { KeepsParts self.old self.new }
    {
        self.labels.owners.push(name.copy()?)?;
        self.names.make(name, Kind::Owner, id.number())?;
        Ok(())
    }

    /// Gives the next effect a name.
    pub(crate) fn name_effect(&mut self, name: Name, id: EffectId) -> Result<(), NoMemory>
        requires { meaning_of self.old.names name ≡ None }
        ensures names { OnOk result (self.new.names ≡ self.old.names ++ (name, record { kind = kind.Effect; number = id }) ∷ []) }
        ensures labels { OnOk result (labels_of self.new.labels
            ≡ record (labels_of self.old.labels) { effects = with_label id (Some (named name)) (labels_of self.old.labels).effects }) }
        ensures parts { KeepsParts self.old self.new }
    {
        let label = Label::named(self.alloc, name.copy()?);
        label_effect(&mut self.labels.effects, id, label)?;
        self.names.make(name, Kind::Effect, id.number())?;
        Ok(())
    }

    /// Gives the next page a name.
    pub(crate) fn name_page(&mut self, name: Name, id: PageId) -> Result<(), NoMemory>
        requires { meaning_of self.old.names name ≡ None }
        ensures names { OnOk result (self.new.names ≡ self.old.names ++ (name, record { kind = kind.Page; number = id }) ∷ []) }
        ensures labels { OnOk result (labels_of self.new.labels ≡ record (labels_of self.old.labels) { pages = self.old.labels.pages.items ++ name ∷ [] }) }
        ensures parts { KeepsParts self.old self.new }
    {
        self.labels.pages.push(name.copy()?)?;
        self.names.make(name, Kind::Page, id.number())?;
        Ok(())
    }

    /// Gives the next watcher a name.
    pub(crate) fn name_watcher(&mut self, name: Name, id: WatcherId) -> Result<(), NoMemory>
        requires { meaning_of self.old.names name ≡ None }
        ensures names { OnOk result (self.new.names ≡ self.old.names ++ (name, record { kind = kind.Watcher; number = id }) ∷ []) }
        ensures labels { OnOk result (labels_of self.new.labels ≡ record (labels_of self.old.labels) { watchers = self.old.labels.watchers.items ++ name ∷ [] }) }
        ensures parts { KeepsParts self.old self.new }
    {
        self.labels.watchers.push(name.copy()?)?;
        self.names.make(name, Kind::Watcher, id.number())?;
        Ok(())
    }
}
