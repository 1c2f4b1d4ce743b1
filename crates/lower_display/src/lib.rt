//! Slots of columns as text, by the type of the column: arrow2's `get_display`.
//!
//! Dates, times and time stamps print as ISO 8601, decimals with their point, texts as they are and
//! bytes in hexadecimal.
#![tactic(auto)]

mod children;
mod clock;
mod column;
mod date;
mod digits;
mod display;
mod float;
mod form;
mod value;
mod wide;
mod zone;

pub use column::{Kind, SlotDisplay};
pub use display::{ColumnDisplay, get_display};
pub use float::{FloatDisplay, FloatSlot, FloatType, get_float_display};
pub use form::{Form, form_of};
pub use zone::{Zone, zone_of};
