// Bodies of effects.

use effect_model::Plain;
use sig_base::{Fault, Name, Scalar, Value};
use sig_formula::Formula;

/// A statement of a body. Its numbers are places in the lists of the body, and the slots of its formulas are places among the names.
#[derive(Drop)]
pub enum Stmt {
    /// A statement of one line; its cells and things are places among the targets.
    Plain(Plain<u32, u32, Formula>),
    /// A guard, and what is done only where it is true.
    When(Formula, Vec<Stmt>),
    /// A nested effect, by its place among the effects, is made.
    Effect(u32),
    /// A computed gets another recipe, by the place of the rewiring.
    Rewire(u32),
}

/// What a computed is computed by.
pub enum Recipe2 {
    /// A formula whose slots are places among the names of the rewiring.
    Formula(Formula),
    /// The host formula at a place, whose arguments are the names of the rewiring.
    Host(u64),
}

impl Drop for Recipe2 {
    fn drop(self) {
        match self {
            Recipe2::Formula(_) => {}
            Recipe2::Host(_) => {}
        }
    }
}

/// A computed, by its place among the targets of the body, and what it is computed by from then on.
pub struct Rewire {
    pub target: u32,
    pub recipe: Recipe2,
    pub names: Vec<Name>,
}

impl Drop for Rewire {
    fn drop(self) {
        let Rewire {
            target: _,
            recipe: _,
            names: _,
        } = self;
    }
}

/// The body of an effect: its statements, the names that they act on, the names in their formulas, the bodies of its nested effects,
/// and its rewirings.
pub struct Body {
    pub statements: Vec<Stmt>,
    pub targets: Vec<Name>,
    pub names: Vec<Name>,
    pub effects: Vec<Body>,
    pub rewires: Vec<Rewire>,
}

impl Drop for Body {
    fn drop(self) {
        let Body {
            statements: _,
            targets: _,
            names: _,
            effects: _,
            rewires: _,
        } = self;
    }
}

/// What a body wants done, with numbers as in its statements.
#[derive(Drop)]
pub enum Act {
    Set(u32, Scalar),
    Log(Value),
    CleanupSet(u32, Scalar),
    CleanupLog(Value),
    Effect(u32),
    Dispose(u32),
    Rewire(u32),
}

/// What a body answers: the first slot that it needs and doesn't know, and whether that read is tracked; all its acts, in order; or its
/// first fault.
#[derive(Drop)]
pub enum BodyStep {
    Read { slot: u32, tracked: bool },
    Acts(Vec<Act>),
    Fail(Fault),
}
