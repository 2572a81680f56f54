// Statements with places in place of names.
ghost use Rattle.std.specs.Prelude.{◌≡◌};
ghost use Rattle.sig_formula.specs.Trees.{tree};
ghost use Rattle.sig_untrack.specs.Stated as stated;
ghost use Rattle.sig_untrack.specs.Stated.{Stated, held_line, put};

use effect_model::Plain;
use sig_formula::Formula;
use sig_untrack::Stmt;

/// The statement that is this line.
pub fn line(plain: Plain<u32, u32, Formula>) -> Stmt
    ensures { (rest : Stated) → put result rest ≡ stated.plain (held_line plain) rest }
{
    Stmt::Plain(plain)
}

/// The statement that does others only where a formula is true.
pub fn when(formula: Box<Formula>, inner: Vec<Stmt>) -> Stmt
    ensures { (rest : Stated) → put result rest ≡ stated.when (tree formula.value) (stated.stated inner.items stated.no_more) rest }
{
    Stmt::When(Box::into_inner(formula), inner)
}

/// The statement that makes the nested effect at a place.
pub fn effect(place: u32) -> Stmt
    ensures { (rest : Stated) → put result rest ≡ stated.effect place rest }
{
    Stmt::Effect(place)
}

/// The statement that does the rewiring at a place.
pub fn rewire(place: u32) -> Stmt
    ensures { (rest : Stated) → put result rest ≡ stated.rewire place rest }
{
    Stmt::Rewire(place)
}
