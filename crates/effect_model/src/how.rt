// How signals are changed.

/// How a signal was changed.
#[derive(Clone, Copy)]
pub enum How {
    /// It got another value, or an abort gave it its earlier value back.
    Set,
    /// It got another recipe.
    Rewire,
    /// It was disposed.
    Gone,
}
