// Statements that stand alone.

/// A statement of one line, with cells, things and formulas of these types.
#[derive(Drop)]
pub enum Plain<C, T, F> {
    /// `set C F` sets a cell.
    Set(C, F),
    /// `log F` logs a value.
    Log(F),
    /// `cleanup set C F` sets a cell when the effect is taken back.
    CleanupSet(C, F),
    /// `cleanup log F` logs a value when the effect is taken back.
    CleanupLog(F),
    /// `dispose T` disposes a thing.
    Dispose(T),
}
