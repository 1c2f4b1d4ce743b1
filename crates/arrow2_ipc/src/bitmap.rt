//! arrow2's `bitmap`: bits that arrays share, and their builder.
pub use lower::bitmap::{Bitmap, BitmapIter};
pub use lower_builders::bitmap::MutableBitmap;
