//! The options of writers.
ghost use Rattle.std.specs.Prelude.{◌≡◌};
ghost use Rattle.ipc_write.specs.Writers.{order_of};

pub use ipc_encode::common::{EncodedData, WriteOptions};
use lower::types::Endianness;

// The byte order of numbers.
pub(crate) fn byte_order(options: WriteOptions) -> Endianness
    ensures { result ≡ order_of options }
{
    if options.big_endian {
        Endianness::Big
    } else {
        Endianness::Little
    }
}
