//! Arrays of the results of comparisons.
ghost use Rattle.std.specs.Prelude.{◌≡◌, length, IfOk};
ghost use Rattle.std.specs.Option.{option_copied};
ghost use Rattle.lower.specs.TypeTrees.{plain, boolean};
ghost use Rattle.lower_flat_arrays.specs.Validities.{ValidityFits};
ghost use Rattle.lower_flat_arrays.specs.Booleans.{boolean_seen};

use lower::bitmap::Bitmap;
use lower::datatypes::DataType;
use lower_builders::bitmap::MutableBitmap;
use lower_flat_arrays::BooleanArray;
use std::alloc::AllocError;

// The same validity, in the same memory.
fn shared(validity: Option<&Bitmap>) -> Result<Option<Bitmap>, AllocError>
    ensures { IfOk result (λ copy. copy ≡ option_copied validity.entry) }
{
    match validity {
        None => Ok(None),
        Some(bits) => Ok(Some(bits.clone()?)),
    }
}

// The array of these bits.
pub(crate) fn booleans(
    bits: MutableBitmap,
    validity: Option<&Bitmap>,
) -> Result<BooleanArray, AllocError>
    requires { ValidityFits (option_copied validity) (length bits) }
    ensures { let seen = boolean_seen (plain boolean) bits (option_copied validity.entry) in
        IfOk result (λ a. a ≡ seen) }
{
    let validity = shared(validity)?;
    let values = bits.finish()?;
    match BooleanArray::try_new(DataType::Boolean, values, validity) {
        Ok(array) => Ok(array),
        Err(_) => unreachable!(),
    }
}
