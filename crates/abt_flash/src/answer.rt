//! What a delivery returns.

/// What was delivered.
#[derive(Clone, Copy, Debug, PartialEq, Eq, Drop)]
pub struct Delivered {
    /// How many pieces were flashed in this call.
    pub pieces: u32,
}
