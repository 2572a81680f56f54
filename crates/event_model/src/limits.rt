// The limit of handlers.

/// The most handlers of events that a script makes.
pub const MOST_HANDLERS: usize = 256;
