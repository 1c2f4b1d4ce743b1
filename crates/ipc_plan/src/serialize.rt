//! Plans columns level by level: each array, then its children.
//!
//! Arrow columnar format, "RecordBatch message". The range of slots is passed down, so that no
//! array is sliced or cloned.
ghost use Rattle.std.specs.Prelude.{◌+◌, ◌^◌, ◌<◌, ◌≤◌, map, All, IfOk, OnOk};
ghost use Rattle.lower_arrays.specs.AnyLayouts.{layout_of};
ghost use Rattle.lower_arrays.specs.Children.{AllReach};
ghost use Rattle.lower_arrays.specs.Layouts.{layouts, len_of, records};
ghost use Rattle.lower_arrays.specs.Slots.{AreArrays, IsArray};
ghost use Rattle.std.specs.List.{flat_map};
ghost use Rattle.ipc_model.specs.Offers.{levels_below, whole_levels, written_levels};
ghost use Rattle.ipc_plan.specs.Taking.{AnswersColumns, TakesLevels};
ghost use Rattle.ipc_plan.specs.Bodies.{PlansColumns};
ghost use Rattle.ipc_plan.specs.Plans.{Adds};

mod binary;
mod boolean;
mod dictionary;
mod fixed_size_binary;
mod fixed_size_list;
mod list;
mod map;
mod null;
mod numbers;
mod offsets;
mod primitive;
mod struct_;
mod union;
mod utf8;
mod validity;

use crate::plan::{Plan, PlanFault};
use crate::serialize::binary::{plan_large_binary, plan_small_binary};
use crate::serialize::boolean::plan_boolean;
use crate::serialize::dictionary::plan_dictionary;
use crate::serialize::fixed_size_binary::plan_fixed_size_binary;
use crate::serialize::fixed_size_list::plan_fixed_size_list;
use crate::serialize::list::plan_list;
use crate::serialize::map::plan_map;
use crate::serialize::null::plan_null;
use crate::serialize::primitive::plan_primitive;
use crate::serialize::struct_::plan_struct;
use crate::serialize::union::plan_union;
use crate::serialize::utf8::{plan_large_utf8, plan_small_utf8};
use ipc_devices::Fault;
use lower::types::Endianness;
use lower_arrays::array::AnyArray;
use std::alloc::Global;

/// Plans the message of these columns: nodes, buffers and pieces, in order.
///
/// Numbers have the byte order `order`. No byte of a column is copied. For a dictionary the keys
/// are planned; its values belong in a message of their own.
///
/// Errors (if several apply, any of them):
///
/// - `Fault::Argument(ArgFault::TooLong)`: an array at some level has more than `2^63 - 1` slots to
///   write.
/// - `Fault::Argument(ArgFault::TooLarge)`: the body would end after `2^63 - 1`.
/// - `Fault::Memory`: an allocation failed.
pub fn plan_columns<'a>(
    alloc: Global,
    columns: &'a [AnyArray],
    order: Endianness,
) -> Result<Plan<'a>, Fault>
    ensures plans { IfOk result (λ plan. PlansColumns order (map layout_of columns.now) plan) }
    ensures takes { AnswersColumns result (flat_map whole_levels (map layout_of columns.now)) }
    ensures arrays { OnOk result (AreArrays (layouts (map layout_of columns.now))) }
{
    // Room for columns without children, which most are: a node, two buffers and two pieces each.
    let count = columns.len();
    let nodes = Vec::with_capacity(alloc, count)?;
    let buffers = Vec::with_capacity(alloc, count.saturating_mul(2))?;
    let pieces = Vec::with_capacity(alloc, count.saturating_mul(2))?;
    let mut plan = Plan {
        order,
        nodes,
        buffers,
        pieces,
        end: 0,
    };
    plan_whole(&mut plan, columns)?;
    Ok(plan)
}

// Plans whole arrays, in order.
#[cycle(plans)]
pub(crate) fn plan_whole<'a>(plan: &mut Plan<'a>, arrays: &'a [AnyArray]) -> Result<(), PlanFault>
    requires { plan.old.end < 2 ^ 63 }
    ensures grows { OnOk result (Adds plan.old plan.new (flat_map whole_levels (map layout_of arrays.now))) }
    ensures takes { TakesLevels result (flat_map whole_levels (map layout_of arrays.now)) plan.old.end plan.new.end }
    ensures arrays { OnOk result (All (λ array. IsArray (layout_of array)) arrays.now) }
{
    for array in arrays {
        let len = array.len();
        plan_array(plan, array, 0, len)?;
    }
    Ok(())
}

// Plans the same slots of each child, in order.
#[cycle(plans)]
pub(crate) fn plan_beside<'a>(
    plan: &mut Plan<'a>,
    children: &'a [AnyArray],
    offset: usize,
    len: usize,
) -> Result<(), PlanFault>
    requires small { plan.old.end < 2 ^ 63 }
    requires inside { AllReach (offset + len) (layouts (map layout_of children.now)) }
    ensures grows { OnOk result (Adds plan.old plan.new (levels_below (layouts (map layout_of children.now)) records offset len)) }
    ensures takes { TakesLevels result (levels_below (layouts (map layout_of children.now)) records offset len) plan.old.end plan.new.end }
{
    for child in children {
        plan_array(plan, child, offset, len)?;
    }
    Ok(())
}

/// Adds `len` slots of an array, from slot `offset`, to the plan.
///
/// It adds what is written of each level.
///
/// Errors (if several apply, any of them):
///
/// - `PlanFault::Long`: a level has more than `2^63 - 1` slots to write.
/// - `PlanFault::Large`: the body would end after `2^63 - 1`.
/// - `PlanFault::NoMemory`: an allocation failed.
///
/// After an error the plan may have a part of the array.
#[cycle(plans)]
pub fn plan_array<'a>(
    plan: &mut Plan<'a>,
    array: &'a AnyArray,
    offset: usize,
    len: usize,
) -> Result<(), PlanFault>
    requires small { plan.old.end < 2 ^ 63 }
    requires inside { offset + len ≤ len_of (layout_of array.now) }
    ensures grows { OnOk result (Adds plan.old plan.new (written_levels (layout_of array.now) offset len)) }
    ensures takes { TakesLevels result (written_levels (layout_of array.now) offset len) plan.old.end plan.new.end }
{
    match array {
        AnyArray::Null(array) => plan_null(plan, array, offset, len),
        AnyArray::Boolean(array) => plan_boolean(plan, array, offset, len),
        AnyArray::Primitive(array) => plan_primitive(plan, array, offset, len),
        AnyArray::FixedSizeBinary(array) => plan_fixed_size_binary(plan, array, offset, len),
        AnyArray::Binary(array) => plan_small_binary(plan, array, offset, len),
        AnyArray::LargeBinary(array) => plan_large_binary(plan, array, offset, len),
        AnyArray::Utf8(array) => plan_small_utf8(plan, array, offset, len),
        AnyArray::LargeUtf8(array) => plan_large_utf8(plan, array, offset, len),
        AnyArray::List(array) => plan_list(plan, array, offset, len),
        AnyArray::LargeList(array) => plan_list(plan, array, offset, len),
        AnyArray::FixedSizeList(array) => plan_fixed_size_list(plan, array, offset, len),
        AnyArray::Struct(array) => plan_struct(plan, array, offset, len),
        AnyArray::Map(array) => plan_map(plan, array, offset, len),
        AnyArray::Dictionary(array) => plan_dictionary(plan, array, offset, len),
        AnyArray::Union(array) => plan_union(plan, array, offset, len),
    }
}
