// How much is noted.

/// How many facts a journal has at most.
pub const MOST_FACTS: usize = 1_048_576;
