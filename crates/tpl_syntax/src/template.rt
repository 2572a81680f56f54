// Templates.
ghost use Rattle.std.specs.Prelude.{◌≡◌, ◌+◌, Some, map};
ghost use Rattle.sig_formula.specs.Trees.{tree};
ghost use Rattle.tpl_syntax.specs.Lines.{is_tag, mapped, tag_at};

use crate::{Mark, TplLine};
use sig_base::Name;
use std::marker::Model;

/// What a page is made of: lines, each where it may stand, and the names that their formulas read. It comes from `read_template` alone.
pub struct Template {
    pub(crate) names: Vec<Name>,
    pub(crate) lines: Vec<TplLine>,
}

impl Drop for Template {
    fn drop(self) {
        let Template { names: _, lines: _ } = self;
    }
}

impl Model for Template {
    ghost use Rattle.std.specs.Prelude.{map};
    ghost use Rattle.sig_formula.specs.Trees.{tree};
    ghost use Rattle.tpl_syntax.specs.Codes.{plan_code};
    ghost use Rattle.tpl_syntax.specs.Lines.{mapped, Plan};

    ghost Value = { Plan };

    ghost coded = { plan_code };

    ghost view = { λ t. record { names = t.names.items; lines = map (mapped tree) t.lines.items } };
}

// Whether a line begins an element.
fn begins_element(line: &TplLine) -> bool
    ensures { result ≡ is_tag (Some (mapped tree line.now)) }
{
    match line {
        TplLine::Plain(Mark::Tag(_)) => true,
        _ => false,
    }
}

// Whether the line of a place does; places are counted from 0.
fn is_tag_in(lines: &[TplLine], place: usize) -> bool
    ensures { result ≡ tag_at (place + 1) (map (mapped tree) lines.now) }
{
    let Some(line) = lines.get(place) else {
        return false;
    };
    begins_element(line)
}

impl Template {
    /// The distinct names that the formulas read, in the order of the text.
    pub fn names(&self) -> &[Name]
        ensures { result.now ≡ self.now.names }
    {
        &self.names
    }

    /// The lines in their order.
    pub fn lines(&self) -> &[TplLine]
        ensures { map (mapped tree) result.now ≡ self.now.lines }
    {
        &self.lines
    }
    /// Whether the line of an ordinal begins an element. Lines are counted from 1.
    pub fn tag_at(&self, line: usize) -> bool
        ensures { result ≡ tag_at line self.now.lines }
    {
        if line == 0 {
            return false;
        }
        is_tag_in(&self.lines, line - 1)
    }
}
