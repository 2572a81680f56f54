// A formula as a list of instructions.
ghost use Rattle.std.specs.Prelude.{◌≡◌, ◌++◌, ◌∷◌, [], length, OnOk};
ghost use Rattle.sig_formula.specs.declared.program.Instruction.TheVariants as job;
ghost use Rattle.sig_formula.specs.Programs.{code, decides, with_decision};
ghost use Rattle.sig_formula.specs.Trees.{tree};

use crate::{BinOp, Formula};
use sig_base::{Name, NoMemory, Scalar};
use std::alloc::Global;

/// What is made of rows: a sum over them, or those that are kept.
#[derive(Clone, Copy)]
pub enum Gathering {
    Sum,
    Keep,
}

/// What is done with values of a stack. A place is a number of instructions that are left.
#[derive(Drop)]
pub enum Act {
    /// Puts a scalar on the stack.
    Lit(Scalar),
    /// Puts a field of the row at hand on the stack.
    It(Name),
    /// Puts its key on the stack.
    ItKey,
    /// The other truth in the place of one.
    Not,
    /// How many rows there are, in the place of rows.
    Count,
    /// Goes on at a place with what the left operand decides alone.
    Decide(BinOp, usize),
    /// What an operator makes of two values, in their place.
    Operate(BinOp),
    /// Takes a truth away, and goes on at a place where it is false.
    Test(usize),
    /// Goes on at a place.
    Skip(usize),
    /// Takes rows away, and goes over them with what comes next; at a place behind the last one.
    Begin(Gathering, usize),
    /// Takes away what a row's part came to, and goes on with the next row.
    Next,
}

/// A step of an evaluation. Those of a formula stand back to front: the last one is done first.
#[derive(Drop)]
pub enum Instruction {
    /// Puts the value of a slot on the stack, which is read tracked or not.
    Read(u32, bool),
    Do(Act),
}

/// Whether the left operand can decide alone.
pub fn decides(op: BinOp) -> bool
    ensures { result ≡ decides op }
{
    match op {
        BinOp::Or | BinOp::And => true,
        _ => false,
    }
}

/// The place before which instructions are put.
pub(crate) fn place(program: &Vec<Instruction>) -> usize
    ensures { result ≡ length program.now.items }
{
    program.len()
}

// Puts what stands between two operands before the right one.
fn put_decision(program: &mut Vec<Instruction>, op: BinOp, end: usize) -> Result<(), NoMemory>
    ensures { OnOk result (program.new.items ≡ with_decision op end program.old.items) }
{
    if decides(op) {
        program.push(Instruction::Do(Act::Decide(op, end)))?;
    }
    Ok(())
}

// Puts an instruction before those that are there.
fn add(program: &mut Vec<Instruction>, instruction: Instruction) -> Result<(), NoMemory>
    ensures { OnOk result (program.new.items ≡ program.old.items ++ instruction ∷ []) }
{
    program.push(instruction)?;
    Ok(())
}

// Puts what is done with a part before the instructions that are there, and before it those of the part.
#[cycle(compiling)]
fn put_with(
    program: &mut Vec<Instruction>,
    tracking: bool,
    part: &Formula,
    act: Act,
) -> Result<(), NoMemory>
    ensures { OnOk result (program.new.items ≡ code tracking (tree part.now) (program.old.items ++ job.Do act ∷ [])) }
{
    program.push(Instruction::Do(act))?;
    put(program, tracking, part)?;
    Ok(())
}

/// Puts the instructions of a formula before those that are there. Outside of `untrack` slots are read as `tracking` says.
///
/// # Errors
///
/// `NoMemory` alone.
#[cycle(compiling)]
pub(crate) fn put(
    program: &mut Vec<Instruction>,
    tracking: bool,
    f: &Formula,
) -> Result<(), NoMemory>
    ensures { OnOk result (program.new.items ≡ code tracking (tree f.now) program.old.items) }
{
    let end = place(program);
    match f {
        Formula::Lit(scalar) => add(program, Instruction::Do(Act::Lit(scalar.copy()?)))?,
        Formula::Slot(slot) => add(program, Instruction::Read(*slot, tracking))?,
        Formula::It(field) => add(program, Instruction::Do(Act::It(field.copy()?)))?,
        Formula::ItKey => add(program, Instruction::Do(Act::ItKey))?,
        Formula::Not(inner) => put_with(program, tracking, inner, Act::Not)?,
        Formula::Bin(op, left, right) => {
            put_with(program, tracking, right, Act::Operate(*op))?;
            put_decision(program, *op, end)?;
            put(program, tracking, left)?;
        }
        Formula::If(test, one, other) => {
            put(program, tracking, other)?;
            let false_place = place(program);
            put_with(program, tracking, one, Act::Skip(end))?;
            put_with(program, tracking, test, Act::Test(false_place))?;
        }
        Formula::Count(rows) => put_with(program, tracking, rows, Act::Count)?,
        Formula::Sum(rows, part) => {
            put_with(program, tracking, part, Act::Next)?;
            put_with(program, tracking, rows, Act::Begin(Gathering::Sum, end))?;
        }
        Formula::Keep(rows, test) => {
            put_with(program, tracking, test, Act::Next)?;
            put_with(program, tracking, rows, Act::Begin(Gathering::Keep, end))?;
        }
        Formula::Untrack(inner) => put(program, false, inner)?,
    }
    Ok(())
}
