//! The children and the validity bitmaps of arrays.
ghost use Rattle.std.specs.Prelude.{◌≡◌, ◌<◌, map, IfOk};
ghost use Rattle.std.specs.List.{All};
ghost use Rattle.std.specs.Option.{option_copied};
ghost use Rattle.lower_arrays.specs.Layouts.{layouts, level, children};
ghost use Rattle.lower_arrays.specs.Children.{child_count};
ghost use Rattle.lower_arrays.specs.Choices.{child};
ghost use Rattle.lower_arrays.specs.AnyLayouts.{layout_of};
ghost use Rattle.lower_compute.specs.Runs.{BitsFit, IsValidityOf};
ghost use Rattle.lower_compute.specs.Copies.{each_child, HaveChild};

use crate::bits::copy_validity;
use crate::runs::Run;
use lower::bitmap::Bitmap;
use lower_arrays::array::AnyArray;
use std::alloc::{AllocError, Global};

// The child with this number among all.
fn child_at(children: &[AnyArray], number: usize) -> &AnyArray
    requires { number < child_count (layouts (map layout_of children.now)) }
    ensures { layout_of result.now ≡ child (layouts (map layout_of children.now)) number }
{
    &children[number]
}

/// Returns the child with this number.
#[tactic(auto, using(crate::proofs::ChildPlaces::places))]
pub(crate) fn child_of(array: &AnyArray, number: usize) -> &AnyArray
    requires { number < child_count (children (layout_of array.now)) }
    ensures { layout_of result.now ≡ child (children (layout_of array.now)) number }
{
    match array {
        AnyArray::List(array) => array.values(),
        AnyArray::LargeList(array) => array.values(),
        AnyArray::FixedSizeList(array) => array.values(),
        AnyArray::Map(array) => array.field(),
        AnyArray::Dictionary(array) => array.values(),
        AnyArray::Struct(array) => child_at(array.values(), number),
        AnyArray::Union(array) => child_at(array.fields(), number),
        _ => unreachable!(),
    }
}

/// Returns the child with this number of each array.
pub(crate) fn children_of<'a>(
    alloc: Global,
    arrays: &[&'a AnyArray],
    number: usize,
) -> Result<Vec<&'a AnyArray>, AllocError>
    requires { HaveChild number (map (λ a. layout_of a.now) arrays.now) }
    ensures { IfOk result (λ v. map (λ a. layout_of a.now) v.items
        ≡ each_child number (map (λ a. layout_of a.now) arrays.now)) }
{
    let mut all = Vec::with_capacity(alloc, arrays.len())?;
    for array in arrays {
        let child = child_of(*array, number);
        all.push(child)?;
    }
    Ok(all)
}

// The validity of each array.
fn validities_of<'a>(
    alloc: Global,
    arrays: &[&'a AnyArray],
) -> Result<Vec<Option<&'a Bitmap>>, AllocError>
    ensures { IfOk result
        (λ v. map option_copied v.items
        ≡ map (λ a. (level (layout_of a.now)).validity) arrays.now) }
{
    let mut all = Vec::with_capacity(alloc, arrays.len())?;
    for array in arrays {
        all.push(array.validity())?;
    }
    Ok(all)
}

/// Returns the validity of the slots of each run, which is `None` if no array has a bitmap.
pub(crate) fn validity_of_runs(
    alloc: Global,
    arrays: &[&AnyArray],
    runs: &[Run],
) -> Result<Option<Bitmap>, AllocError>
    requires { let ls = map (λ a. layout_of a.now) arrays.now in
        All (BitsFit (map (λ l. (level l).validity) ls)) runs.now }
    ensures { let ls = map (λ a. layout_of a.now) arrays.now in
        IfOk result (IsValidityOf (map (λ l. (level l).validity) ls) runs.now) }
{
    let validities = validities_of(alloc, arrays)?;
    copy_validity(alloc, &validities, runs)
}
