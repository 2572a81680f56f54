// Where a line may stand among the lines of a template.
ghost use Rattle.std.specs.Prelude.{◌≡◌, ◌∷◌, ◌++◌, [], true, length, drop, OnOk};
ghost use Rattle.std.specs.List.{list_any};
ghost use Rattle.std.specs.Str.{bytes_eq};
ghost use Rattle.tpl_syntax.specs.declared.place.Level.TheVariants as level;
ghost use Rattle.tpl_syntax.specs.Places.{among, behind, content_at, content_of, fits, in_loop, innermost, is_choice, is_child, is_closed, is_each, is_element};
ghost use Rattle.tpl_syntax.specs.Places.{is_loop, is_opening, mark_role, moved, purpose_role, role_of, stands, top};
ghost use Rattle.tpl_syntax.specs.Views.{levels_of, place_of, role_seen};

use crate::{Line, Mark, Purpose};
use html_out::{is_raw, is_void};
use sig_base::{NoMemory, Text};
use std::alloc::Global;

/// What an element may hold.
#[derive(Clone, Copy, PartialEq, Eq)]
pub enum Content {
    /// Nothing: it has no end tag.
    Nothing,
    /// Literals alone, which aren't escaped.
    Bare,
    /// Any lines.
    Lines,
}

/// What a line begins and an `end` ends.
#[derive(Clone, Copy, PartialEq, Eq)]
pub enum Level {
    Element(Content),
    /// What may still have an `else`.
    Choice,
    /// What stands behind an `else`.
    Other,
    Loop,
}

/// What a line is among others.
#[derive(Clone, Copy)]
pub enum Role<'a> {
    /// It stands by itself.
    Leaf,
    /// It is an attribute, of this name, of the element before it.
    Attribute(&'a Text),
    /// It begins this.
    Begins(Level),
    /// It begins the part behind an `else`.
    Turns,
    /// It ends the innermost of what is begun.
    Ends,
}

/// A place among the lines of a template.
#[derive(Drop)]
pub struct Place {
    /// What is begun, the innermost last.
    levels: Vec<Level>,
    /// Whether an attribute may stand here.
    in_tag: bool,
    /// The names of the attributes just before.
    attributes: Vec<Text>,
}

// What an element of this name may hold.
fn content_of(name: &str) -> Content
    ensures { result ≡ content_of name.now }
{
    if is_void(name) {
        Content::Nothing
    } else if is_raw(name) {
        Content::Bare
    } else {
        Content::Lines
    }
}

// The innermost of what is begun.
fn innermost(levels: &[Level]) -> Option<Level>
    ensures { result ≡ innermost (levels_of levels.now) }
{
    levels.last().copied()
}

fn is_choice(levels: &[Level]) -> bool
    ensures { result ≡ is_choice (levels_of levels.now) }
{
    innermost(levels) == Some(Level::Choice)
}

fn is_among(names: &[Text], name: &Text) -> bool
    ensures { result ≡ list_any (λ m. bytes_eq m name.now) names.now }
{
    names.iter().any(|other| other.as_str() == name.as_str())
}

fn any_loop(levels: &[Level]) -> bool
    ensures { result ≡ list_any is_loop levels.now }
{
    levels.iter().any(|level| matches!(level, Level::Loop))
}

// What a line without a formula is.
fn mark_role(mark: &Mark) -> Role<'_>
    ensures { role_seen result ≡ mark_role mark.now }
{
    match mark {
        Mark::Tag(name) => Role::Begins(Level::Element(content_of(name.as_str()))),
        Mark::Try => Role::Begins(Level::Choice),
        Mark::Else => Role::Turns,
        Mark::End => Role::Ends,
    }
}

// What a line with a formula is.
fn purpose_role(purpose: &Purpose) -> Role<'_>
    ensures { role_seen result ≡ purpose_role purpose.now }
{
    match purpose {
        Purpose::Text => Role::Leaf,
        Purpose::Attr(name) => Role::Attribute(name),
        Purpose::If => Role::Begins(Level::Choice),
        Purpose::Each => Role::Begins(Level::Loop),
    }
}

/// What a line is.
pub fn role_of<F: Drop>(line: &Line<F>) -> Role<'_>
    ensures { role_seen result ≡ role_of line.now }
{
    match line {
        Line::Plain(mark) => mark_role(mark),
        Line::Over(purpose, _) => purpose_role(purpose),
    }
}

/// Whether an `end` ends what it begins.
pub fn is_opening(role: &Role<'_>) -> bool
    ensures { result ≡ is_opening (role_seen role.now) }
{
    matches!(role, Role::Begins(_))
}

/// Whether it, or what it shows, is a child of the element around it.
pub fn is_child(role: &Role<'_>) -> bool
    ensures { result ≡ is_child (role_seen role.now) }
{
    matches!(role, Role::Leaf) || is_opening(role)
}

/// Whether it begins an `each`.
pub fn is_each(role: &Role<'_>) -> bool
    ensures { result ≡ is_each (role_seen role.now) }
{
    match role {
        Role::Begins(level) => matches!(level, Level::Loop),
        _ => false,
    }
}

impl Place {
    /// The place of the first line.
    pub fn first(alloc: Global) -> Place
        ensures { place_of result ≡ top }
    {
        Place {
            levels: Vec::new(alloc),
            in_tag: false,
            attributes: Vec::new(alloc),
        }
    }

    /// Whether nothing is begun here.
    pub fn is_closed(&self) -> bool
        ensures { result ≡ is_closed (place_of self.now) }
    {
        self.levels.is_empty()
    }

    /// Whether this stands in an `each`.
    pub fn in_loop(&self) -> bool
        ensures { result ≡ in_loop (place_of self.now).levels }
    {
        any_loop(&self.levels)
    }

    /// What may stand in the element around it, if an element is the innermost that is begun.
    pub fn content(&self) -> Content
        ensures { result ≡ content_at (place_of self.now).levels }
    {
        match innermost(&self.levels) {
            Some(Level::Element(content)) => content,
            _ => Content::Lines,
        }
    }

    /// How much is begun.
    pub fn depth(&self) -> usize
        ensures { result ≡ length (place_of self.now).levels }
    {
        self.levels.len()
    }

    // Whether a line that is this may stand there.
    fn stands(&self, role: &Role<'_>) -> bool
        ensures { result ≡ stands (place_of self.now) (role_seen role.now) }
    {
        match role {
            Role::Attribute(name) => self.in_tag && !is_among(&self.attributes, name),
            Role::Turns => is_choice(&self.levels),
            Role::Ends => !self.levels.is_empty(),
            Role::Leaf | Role::Begins(_) => true,
        }
    }

    /// Whether the line may stand there.
    pub fn fits<F: Drop>(&self, line: &Line<F>) -> bool
        ensures { result ≡ fits (place_of self.now) line.now }
    {
        self.stands(&role_of(line))
    }

    // Begins a level.
    fn begin(&mut self, level: Level) -> Result<(), NoMemory>
        ensures { OnOk result (place_of self.new ≡ record { levels = level ∷ (place_of self.old).levels; in_tag = is_element level; attributes = [] }) }
    {
        self.levels.push(level)?;
        self.in_tag = matches!(level, Level::Element(_));
        self.attributes.clear();
        Ok(())
    }

    // Ends the innermost level, if there is one.
    fn end(&mut self)
        ensures { place_of self.new ≡ among (drop 1 (place_of self.old).levels) }
    {
        let _ended = self.levels.pop();
        self.in_tag = false;
        self.attributes.clear();
    }

    // Leaves a tag.
    fn leave_tag(&mut self)
        ensures { place_of self.new ≡ among (place_of self.old).levels }
    {
        self.in_tag = false;
        self.attributes.clear();
    }

    // Goes behind an attribute.
    fn pass_attribute(&mut self, name: &Text) -> Result<(), NoMemory>
        ensures { OnOk result (place_of self.new ≡ record (place_of self.old) { attributes = (place_of self.old).attributes ++ name.now ∷ [] }) }
    {
        self.attributes.push(name.copy()?)?;
        Ok(())
    }

    // Goes behind a line that is this.
    fn pass(&mut self, role: &Role<'_>) -> Result<(), NoMemory>
        ensures { OnOk result (place_of self.new ≡ behind (place_of self.old) (role_seen role.now)) }
    {
        match role {
            Role::Leaf => {
                self.leave_tag();
                Ok(())
            }
            Role::Attribute(name) => self.pass_attribute(name),
            Role::Begins(level) => self.begin(*level),
            Role::Turns => {
                self.end();
                self.begin(Level::Other)
            }
            Role::Ends => {
                self.end();
                Ok(())
            }
        }
    }

    /// Goes behind a line.
    pub fn step<F: Drop>(&mut self, line: &Line<F>) -> Result<(), NoMemory>
        ensures { OnOk result (place_of self.new ≡ moved (place_of self.old) line.now) }
    {
        self.pass(&role_of(line))?;
        Ok(())
    }
}
