// Every limit of the language.

/// The most bytes of a text.
pub const MOST_TEXT: usize = 1024;

/// The most bytes of a name.
pub const MOST_NAME: usize = 32;

/// The most bytes of the name of an element or an attribute.
pub const MOST_TAG: usize = 32;

/// The most fields of rows.
pub const MOST_FIELDS: usize = 8;

/// The most rows under one name.
pub const MOST_ROWS: usize = 512;

/// The most distinct names in a formula.
pub const MOST_SOURCES: usize = 64;

/// The greatest height of a formula.
pub const MOST_HEIGHT: usize = 64;

/// The most bytes of a line, without its end.
pub const MOST_LINE: usize = 4096;

/// The most lines of a template, without its first and its `end`.
pub const MOST_TEMPLATE_LINES: usize = 128;

/// The most cells, lists and computeds that live at once.
pub const MOST_NODES: usize = 16_384;

/// The most templates.
pub const MOST_TEMPLATES: usize = 64;

/// The most pages that live at once.
pub const MOST_PAGES: usize = 8;

/// The most bytes of a script.
pub const MOST_SCRIPT: usize = 4_194_304;
