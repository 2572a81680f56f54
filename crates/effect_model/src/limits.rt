// The limits of what lives at once.

/// The most watchers that live at once.
pub const MOST_WATCHERS: usize = 256;

/// The most owners that live at once, those of effects not counted.
pub const MOST_OWNERS: usize = 1_024;

/// The most effects that a command made and that live at once. Tables of effects take any number: whoever makes effects keeps to it.
pub const MOST_EFFECTS: usize = 1_024;
