// Why a set is refused.

use thiserror::Error;

/// The cell is gone.
#[derive(Clone, Copy, Debug, Error)]
#[error("the cell is gone")]
pub struct Gone;
