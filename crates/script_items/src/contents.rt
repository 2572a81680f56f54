// Reads what stands in blocks.
ghost use Rattle.std.specs.Prelude.{◌≡◌, ◌≤◌, false, All, IfOk, length, map};
ghost use Rattle.script_lines.specs.Views.{line_of};
ghost use Rattle.script_items.specs.declared.contents.Head.TheVariants as heads;
ghost use Rattle.script_items.specs.Blocks.{body_refused, is_memory, is_want, said_head, template_refused, IsContent};
ghost use Rattle.script_items.specs.Views.{number_in};

use body_text::{Allowance, BodyWhy};
use live_cmd::{Command, EffectBody};
use live_entries::{LimitWord, Refusal};
use script_lines::NumberedLine;
use sig_base::{MOST_LINE, Name, NoMemory, Text};
use std::alloc::Global;
use tpl_syntax::TemplateWhy;

/// The first line of a block.
#[derive(Drop)]
pub enum Head {
    /// `effect E [in O]`
    Effect(Name, Option<Name>),
    /// `on T PLACE @EVENT`
    On(Name, u64, Text),
    /// `template T`
    Template(Name),
}

/// What stands between the first line of a block and its last: a line that isn't in the grammar or may not stand there, by its number;
/// what it is refused for besides; or the command that it makes.
#[derive(Drop)]
pub enum Content {
    Faulty(u32),
    Refused(Refusal),
    Makes(Command),
}

// The number of the line that has this number; 0 where none has.
fn number_at(lines: &[NumberedLine], at: usize) -> u32
    ensures { result ≡ number_in (map line_of lines.now) at }
{
    for line in lines {
        if line.number as usize == at {
            return line.number;
        }
    }
    0
}

// What lines are that are no body, at a line of this number, or want of memory.
fn body_refused(number: u32, why: BodyWhy) -> Result<Content, NoMemory>
    ensures content { IfOk result (λ c. c ≡ body_refused number why) }
    ensures lines { IfOk result (λ c. is_memory why ≡ false) }
{
    match why {
        BodyWhy::Syntax => Ok(Content::Faulty(number)),
        BodyWhy::UntrackHere => Ok(Content::Refused(Refusal::UntrackHere(number))),
        BodyWhy::ItHere => Ok(Content::Refused(Refusal::ItHere(number))),
        BodyWhy::Nest => Ok(Content::Refused(Refusal::Nest(number))),
        BodyWhy::Text => Ok(Content::Refused(Refusal::Limit(LimitWord::Text))),
        BodyWhy::Sources => Ok(Content::Refused(Refusal::Limit(LimitWord::Sources))),
        BodyWhy::Lines => Ok(Content::Refused(Refusal::Limit(LimitWord::Body))),
        BodyWhy::NoMemory(e) => Err(e),
    }
}

// What the body of an effect is, which has this name and stands inside this owner.
fn effect_content(
    alloc: Global,
    name: Name,
    inside: Option<Name>,
    lines: &[NumberedLine],
) -> Result<Content, NoMemory>
    requires { All (λ l. length l.text.now ≤ MOST_LINE) lines.now }
    ensures { IfOk result (λ c. IsContent (said_head (heads.Effect name inside)) (map line_of lines.now) c) }
{
    match body_text::read_numbered(alloc, lines, Allowance::effect()) {
        Ok(read) => {
            let body = EffectBody::of(alloc, read)?;
            Ok(Content::Makes(Command::Effect { name, body, inside }))
        }
        Err(fault) => {
            let content = body_refused(number_at(lines, fault.at), fault.why)?;
            Ok(content)
        }
    }
}

// What the body of a handler is, of an event at a line of a template.
fn handler_content(
    alloc: Global,
    template: Name,
    place: u64,
    event: Text,
    lines: &[NumberedLine],
) -> Result<Content, NoMemory>
    requires { All (λ l. length l.text.now ≤ MOST_LINE) lines.now }
    ensures { IfOk result (λ c. IsContent (said_head (heads.On template place event)) (map line_of lines.now) c) }
{
    match body_text::read_numbered(alloc, lines, Allowance::handler()) {
        Ok(read) => {
            let body = EffectBody::of(alloc, read)?;
            Ok(Content::Makes(Command::On {
                template,
                place,
                event,
                body,
            }))
        }
        Err(fault) => {
            let content = body_refused(number_at(lines, fault.at), fault.why)?;
            Ok(content)
        }
    }
}

// What lines are that are no template, at a line of this number, or want of memory.
fn template_refused(number: u32, why: TemplateWhy) -> Result<Content, NoMemory>
    ensures content { IfOk result (λ c. c ≡ template_refused number why) }
    ensures lines { IfOk result (λ c. is_want why ≡ false) }
{
    match why {
        TemplateWhy::Syntax => Ok(Content::Faulty(number)),
        TemplateWhy::UntrackHere => Ok(Content::Refused(Refusal::UntrackHere(number))),
        TemplateWhy::ItHere => Ok(Content::Refused(Refusal::ItHere(number))),
        TemplateWhy::VoidChild => Ok(Content::Refused(Refusal::VoidChild(number))),
        TemplateWhy::RawText => Ok(Content::Refused(Refusal::RawText(number))),
        TemplateWhy::Nest => Ok(Content::Refused(Refusal::Nest(number))),
        TemplateWhy::Text => Ok(Content::Refused(Refusal::Limit(LimitWord::Text))),
        TemplateWhy::Sources => Ok(Content::Refused(Refusal::Limit(LimitWord::Sources))),
        TemplateWhy::Lines => Ok(Content::Refused(Refusal::Limit(LimitWord::Template))),
        TemplateWhy::NoMemory(e) => Err(e),
    }
}

// What the lines of a template are, which has this name.
fn template_content(alloc: Global, name: Name, lines: &[NumberedLine]) -> Result<Content, NoMemory>
    requires { All (λ l. length l.text.now ≤ MOST_LINE) lines.now }
    ensures { IfOk result (λ c. IsContent (said_head (heads.Template name)) (map line_of lines.now) c) }
{
    match tpl_syntax::read_numbered(alloc, lines) {
        Ok(template) => Ok(Content::Makes(Command::Template { name, template })),
        Err(fault) => {
            let content = template_refused(number_at(lines, fault.at), fault.why)?;
            Ok(content)
        }
    }
}

/// What lines are that stand behind the first line of a block.
pub fn content_of(alloc: Global, head: Head, lines: &[NumberedLine]) -> Result<Content, NoMemory>
    requires { All (λ l. length l.text.now ≤ MOST_LINE) lines.now }
    ensures { IfOk result (λ c. IsContent (said_head head) (map line_of lines.now) c) }
{
    match head {
        Head::Effect(name, inside) => effect_content(alloc, name, inside, lines),
        Head::On(template, place, event) => {
            handler_content(alloc, template, place, event, lines)
        }
        Head::Template(name) => template_content(alloc, name, lines),
    }
}
