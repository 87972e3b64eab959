//! What blocks are made with.

use native_lives::Certificate;
use native_steps::Places;

/// Where Alpha registers are, what is left out, and whether fuel is counted.
#[derive(Drop)]
pub(crate) struct Plan {
    pub(crate) places: Places,
    pub(crate) lives: Certificate,
    pub(crate) metered: bool,
}
