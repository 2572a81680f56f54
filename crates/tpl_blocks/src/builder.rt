// The blocks of a template, read from its last line back.
ghost use Rattle.std.specs.Prelude.{◌≡◌, ◌∷◌, [], map, IfOk, OnOk};
ghost use Rattle.sig_formula.specs.Trees.{tree};
ghost use Rattle.tpl_model.specs.Lines as model;
ghost use Rattle.tpl_blocks.specs.Blocks.{begun, block, held, plain_line, lines_of, part_of, waiting, GoesAround, IsPair, IsTop, StandsBefore};

use crate::Block;
use sig_base::{NoMemory, Text};
use sig_formula::{Formula, copy_formula};
use std::alloc::Global;
use tpl_syntax::{Mark, Purpose, Template, TplLine};

/// What stands before an `end`, read from there back: the lines, those after an `else`, and attributes that wait for their tag.
#[derive(Drop)]
pub(crate) struct Part {
    lines: Box<Block>,
    others: Box<Block>,
    attributes: Vec<(Text, Formula)>,
}

impl Part {
    // No lines.
    fn empty(alloc: Global) -> Result<Part, NoMemory>
        ensures { IfOk result (λ p. part_of p ≡ model.no_lines) }
    {
        let lines = boxed(alloc, Block::Empty)?;
        let others = boxed(alloc, Block::Empty)?;
        Ok(Part {
            lines,
            others,
            attributes: Vec::new(alloc),
        })
    }
}

// Opens a part inside the others.
#[tactic(auto, using(crate::proofs::Stacks::held_push))]
fn open(parts: &mut Vec<Part>, part: Part) -> Result<(), NoMemory>
    ensures { OnOk result (held parts.new.items ≡ part_of part ∷ held parts.old.items) }
{
    parts.push(part)?;
    Ok(())
}

// Takes the innermost part.
fn innermost(parts: &mut Vec<Part>) -> Option<Part>
    ensures { IsTop result (held parts.old.items) (held parts.new.items) }
{
    parts.pop()
}

// Takes the innermost part and the one around it, where both are there.
fn two_innermost(parts: &mut Vec<Part>) -> Option<(Part, Part)>
    ensures { IsPair result (held parts.old.items) (held parts.new.items) }
{
    if parts.len() < 2 {
        return None;
    }
    let inner = parts.pop()?;
    let outer = parts.pop()?;
    Some((inner, outer))
}

// Lines in a box.
fn boxed(alloc: Global, lines: Block) -> Result<Box<Block>, NoMemory>
    ensures { IfOk result (λ b. b.value ≡ lines) }
{
    let held = Box::new(alloc, lines)?;
    Ok(held)
}

// A text before other lines.
fn text_block(
    alloc: Global,
    line: usize,
    formula: &Formula,
    rest: Box<Block>,
) -> Result<Box<Block>, NoMemory>
    ensures { IfOk result (λ b. block b.value ≡ model.text line (tree formula.now) (block rest.value)) }
{
    let formula = copy_formula(alloc, formula)?;
    boxed(alloc, Block::Text(line, formula, rest))
}

// An element before other lines.
fn tag_block(
    alloc: Global,
    line: usize,
    name: &Text,
    attributes: Vec<(Text, Formula)>,
    inner: Box<Block>,
    rest: Box<Block>,
) -> Result<Box<Block>, NoMemory>
    ensures { IfOk result (λ b. block b.value ≡ model.tag line name.now (waiting attributes.items) (block inner.value) (block rest.value)) }
{
    let name = name.copy()?;
    boxed(alloc, Block::Tag(line, name, attributes, inner, rest))
}

// A choice before other lines.
fn choice_block(
    alloc: Global,
    test: &Formula,
    one: Box<Block>,
    other: Box<Block>,
    rest: Box<Block>,
) -> Result<Box<Block>, NoMemory>
    ensures { IfOk result (λ b. block b.value ≡ model.choice (tree test.now) (block one.value) (block other.value) (block rest.value)) }
{
    let test = copy_formula(alloc, test)?;
    boxed(alloc, Block::Choice(test, one, other, rest))
}

// Lines for each row before other lines.
fn each_block(
    alloc: Global,
    rows: &Formula,
    inner: Box<Block>,
    rest: Box<Block>,
) -> Result<Box<Block>, NoMemory>
    ensures { IfOk result (λ b. block b.value ≡ model.each (tree rows.now) (block inner.value) (block rest.value)) }
{
    let rows = copy_formula(alloc, rows)?;
    boxed(alloc, Block::Each(rows, inner, rest))
}

// What a line begins, with the part that its `end` ends, before other lines; a line that begins nothing adds nothing.
fn begun_block(
    alloc: Global,
    ordinal: usize,
    line: &TplLine,
    inner: Part,
    rest: Box<Block>,
) -> Result<Box<Block>, NoMemory>
    ensures { IfOk result (λ b. block b.value ≡ begun ordinal (plain_line line.now) (part_of inner) (block rest.value)) }
{
    let Part {
        lines: inside,
        others,
        attributes,
    } = inner;
    match line {
        TplLine::Plain(Mark::Tag(name)) => {
            tag_block(alloc, ordinal, name, attributes, inside, rest)
        }
        TplLine::Plain(Mark::Try) => boxed(alloc, Block::Attempt(inside, others, rest)),
        TplLine::Plain(Mark::Else) => Ok(rest),
        TplLine::Plain(Mark::End) => Ok(rest),
        TplLine::Over(Purpose::Text, _) => Ok(rest),
        TplLine::Over(Purpose::Attr(_), _) => Ok(rest),
        TplLine::Over(Purpose::If, test) => choice_block(alloc, test, inside, others, rest),
        TplLine::Over(Purpose::Each, rows) => each_block(alloc, rows, inside, rest),
    }
}

// A text before the lines of a part.
fn with_text(alloc: Global, part: Part, line: usize, formula: &Formula) -> Result<Part, NoMemory>
    ensures { IfOk result (λ p. part_of p ∷ [] ≡ model.with_line line (model.TextLine (tree formula.now)) (part_of part ∷ [])) }
{
    let Part {
        lines,
        others,
        attributes,
    } = part;
    let lines = text_block(alloc, line, formula, lines)?;
    Ok(Part {
        lines,
        others,
        attributes,
    })
}

// An attribute.
fn attribute_of(alloc: Global, name: &Text, formula: &Formula) -> Result<(Text, Formula), NoMemory>
    ensures { IfOk result (λ a. waiting (a ∷ []) ≡ (name.now, tree formula.now) ∷ []) }
{
    let name = name.copy()?;
    let formula = copy_formula(alloc, formula)?;
    Ok((name, formula))
}

// An attribute before others.
fn with_first(
    alloc: Global,
    attributes: Vec<(Text, Formula)>,
    name: &Text,
    formula: &Formula,
) -> Result<Vec<(Text, Formula)>, NoMemory>
    ensures { IfOk result (λ v. waiting v.items ≡ (name.now, tree formula.now) ∷ waiting attributes.items) }
{
    let mut attributes = attributes;
    let attribute = attribute_of(alloc, name, formula)?;
    attributes.insert(0, attribute)?;
    Ok(attributes)
}

// An attribute before those that wait.
fn with_attribute(
    alloc: Global,
    part: Part,
    name: &Text,
    formula: &Formula,
) -> Result<Part, NoMemory>
    ensures { IfOk result (λ p. part_of p ∷ [] ≡ (record (part_of part) { attributes = (name.now, tree formula.now) ∷ waiting part.attributes.items }) ∷ []) }
{
    let Part {
        lines,
        others,
        attributes,
    } = part;
    let attributes = with_first(alloc, attributes, name, formula)?;
    Ok(Part {
        lines,
        others,
        attributes,
    })
}

// Where something is begun: the lines before an `else` are still to come, and those behind it stand apart.
fn with_else(alloc: Global, part: Part) -> Result<Part, NoMemory>
    ensures { IfOk result (λ p. part_of p ∷ [] ≡ (record { lines = model.empty; others = block part.lines.value; attributes = [] }) ∷ []) }
{
    let Part {
        lines: others,
        others: _none,
        attributes: _waiting,
    } = part;
    let lines = boxed(alloc, Block::Empty)?;
    Ok(Part {
        lines,
        others,
        attributes: Vec::new(alloc),
    })
}

// A line before the lines of a part, or behind its `else`; any other line leaves it as it is.
fn with_before(alloc: Global, part: Part, ordinal: usize, line: &TplLine) -> Result<Part, NoMemory>
    ensures { IfOk result (λ p. StandsBefore ordinal (plain_line line.now) → part_of p ∷ [] ≡ model.with_line ordinal (plain_line line.now) (part_of part ∷ [])) }
{
    match line {
        TplLine::Plain(Mark::Tag(_)) => Ok(part),
        TplLine::Plain(Mark::Try) => Ok(part),
        TplLine::Plain(Mark::Else) => with_else(alloc, part),
        TplLine::Plain(Mark::End) => Ok(part),
        TplLine::Over(Purpose::Text, formula) => with_text(alloc, part, ordinal, formula),
        TplLine::Over(Purpose::Attr(name), formula) => with_attribute(alloc, part, name, formula),
        TplLine::Over(Purpose::If, _) => Ok(part),
        TplLine::Over(Purpose::Each, _) => Ok(part),
    }
}

// A line before the lines of the innermost part.
fn put_before(
    alloc: Global,
    parts: &mut Vec<Part>,
    ordinal: usize,
    line: &TplLine,
) -> Result<(), NoMemory>
    requires { StandsBefore ordinal (plain_line line.now) }
    ensures { OnOk result (held parts.new.items ≡ model.with_line ordinal (plain_line line.now) (held parts.old.items)) }
{
    let Some(part) = innermost(parts) else {
        return Ok(());
    };
    let part = with_before(alloc, part, ordinal, line)?;
    open(parts, part)?;
    Ok(())
}

// A line around the innermost part, before the lines of the one around that.
fn put_around(
    alloc: Global,
    parts: &mut Vec<Part>,
    ordinal: usize,
    line: &TplLine,
) -> Result<(), NoMemory>
    requires { GoesAround ordinal (plain_line line.now) }
    ensures { OnOk result (held parts.new.items ≡ model.with_line ordinal (plain_line line.now) (held parts.old.items)) }
{
    let Some((inner, outer)) = two_innermost(parts) else {
        return Ok(());
    };
    let Part {
        lines,
        others,
        attributes,
    } = outer;
    let lines = begun_block(alloc, ordinal, line, inner, lines)?;
    let part = Part {
        lines,
        others,
        attributes,
    };
    open(parts, part)?;
    Ok(())
}

// Nothing yet before an `end`.
fn put_end(alloc: Global, parts: &mut Vec<Part>) -> Result<(), NoMemory>
    ensures { OnOk result (held parts.new.items ≡ model.no_lines ∷ held parts.old.items) }
{
    let part = Part::empty(alloc)?;
    open(parts, part)?;
    Ok(())
}

// A line before the parts that are open behind it.
fn put_line(
    alloc: Global,
    parts: &mut Vec<Part>,
    ordinal: usize,
    line: &TplLine,
) -> Result<(), NoMemory>
    ensures { OnOk result (held parts.new.items ≡ model.with_line ordinal (plain_line line.now) (held parts.old.items)) }
{
    match line {
        TplLine::Plain(Mark::Tag(_)) => put_around(alloc, parts, ordinal, line),
        TplLine::Plain(Mark::Try) => put_around(alloc, parts, ordinal, line),
        TplLine::Plain(Mark::Else) => put_before(alloc, parts, ordinal, line),
        TplLine::Plain(Mark::End) => put_end(alloc, parts),
        TplLine::Over(Purpose::Text, _) => put_before(alloc, parts, ordinal, line),
        TplLine::Over(Purpose::Attr(_), _) => put_before(alloc, parts, ordinal, line),
        TplLine::Over(Purpose::If, _) => put_around(alloc, parts, ordinal, line),
        TplLine::Over(Purpose::Each, _) => put_around(alloc, parts, ordinal, line),
    }
}

// The parts that are open before all lines.
fn parts_of(alloc: Global, lines: &[TplLine]) -> Result<Vec<Part>, NoMemory>
    ensures { IfOk result (λ parts. held parts.items ≡ model.parts_from 1 (map plain_line lines.now)) }
{
    let mut parts = Vec::new(alloc);
    put_end(alloc, &mut parts)?;
    let mut at = lines.len();
    while at > 0 {
        put_line(alloc, &mut parts, at, &lines[at - 1])?;
        at -= 1;
    }
    Ok(parts)
}

// The lines of a part alone.
fn lines_in(part: Part) -> Block
    ensures { result ≡ part.lines.value }
{
    let Part {
        lines,
        others: _none,
        attributes: _waiting,
    } = part;
    Box::into_inner(lines)
}

// The lines of the innermost part.
fn first_lines(parts: &mut Vec<Part>) -> Block
    ensures { block result ≡ model.first_block (held parts.old.items) }
{
    let Some(part) = innermost(parts) else {
        return Block::Empty;
    };
    lines_in(part)
}

/// The lines of a template as they nest.
///
/// # Errors
///
/// `NoMemory` alone.
pub fn block_of(alloc: Global, template: &Template) -> Result<Block, NoMemory>
    ensures { IfOk result (λ b. block b ≡ model.block_of (lines_of template.now)) }
{
    let mut parts = parts_of(alloc, template.lines())?;
    Ok(first_lines(&mut parts))
}
