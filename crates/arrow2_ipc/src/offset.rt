//! arrow2's `offset`: where each slot of lists, texts and binaries begins and ends.
pub use lower::offset::{Offset, OffsetsBuffer};
pub use lower_builders::offsets::Offsets;
