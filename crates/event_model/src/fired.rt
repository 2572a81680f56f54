// Handlers that run.

/// A handler that runs, by its place among those that were made, and the node at which it does.
#[derive(Clone, Copy)]
pub struct Fired {
    pub node: u64,
    pub handler: usize,
}
