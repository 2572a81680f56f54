// Formulas and host formulas whose slots stand for the signals of their names.
ghost use Rattle.std.specs.Prelude.{◌≡◌, IfOk, map};
ghost use Rattle.sig_nodes.specs.Answers.{expression_of};
ghost use Rattle.sig_nodes.specs.Computations.{recipe_made};
ghost use Rattle.live_model.specs.Links.{owner_of, recipe_of};
ghost use Rattle.live_model.specs.Names.{number_of};

use live_cmd::SourceText;
use live_names::Names;
use sig_base::{Name, NoMemory, NodeId, OwnerId};
use sig_nodes::Recipe;
use std::alloc::Global;

/// What a computed asks, and the signals that its slots stand for.
#[derive(Drop)]
pub struct LinkedSource {
    pub recipe: Recipe,
    pub slots: Vec<NodeId>,
}

/// The signals of these names.
pub fn signals_of(alloc: Global, names: &Names, used: &[Name]) -> Result<Vec<NodeId>, NoMemory>
    ensures { IfOk result (λ s. s.items ≡ map (number_of names.now) used.now) }
{
    let mut signals = Vec::with_capacity(alloc, used.len())?;
    for name in used {
        signals.push(NodeId::of(names.number_of(name)))?;
    }
    Ok(signals)
}

/// The owner inside which something is made, if one is named.
pub fn owner_of(names: &Names, inside: &Option<Name>) -> Option<OwnerId>
    ensures { result ≡ owner_of names.now inside.now }
{
    match inside {
        None => None,
        Some(owner) => Some(OwnerId::of(names.number_of(owner))),
    }
}

/// What a computed is computed by, on the signals of its names.
pub fn linked_source(
    alloc: Global,
    names: &Names,
    source: SourceText,
) -> Result<LinkedSource, NoMemory>
    ensures { IfOk result (λ s. recipe_made (expression_of s.recipe) s.slots.items ≡ recipe_of names.now source) }
{
    match source {
        SourceText::Formula(wired) => {
            let slots = signals_of(alloc, names, &wired.names)?;
            Ok(LinkedSource {
                recipe: Recipe::Formula(wired.formula),
                slots,
            })
        }
        SourceText::Host(place, arguments) => {
            let slots = signals_of(alloc, names, arguments.as_slice())?;
            Ok(LinkedSource {
                recipe: Recipe::Host(place as usize),
                slots,
            })
        }
    }
}
