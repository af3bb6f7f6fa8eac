//! How large a result may be.

/// The most states of a result.
pub const MOST_STATES: usize = 2048;
/// The most transitions of a result.
pub const MOST_TRANSITIONS: usize = 65536;
/// The most labels of a result.
pub const MOST_LABELS: u32 = 256;
