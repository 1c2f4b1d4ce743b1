//! Views of the tables of Arrow's `Schema.fbs` that describe a type.
ghost use Rattle.std.specs.Prelude.{◌≡◌, ◌<◌, ◌↔◌, IsTrue, Some, length, slice_get};
ghost use Rattle.ipc_table_views.specs.Enumerations.{date_unit_of, interval_unit_of, precision_of, time_unit_of, union_mode_of};
ghost use Rattle.ipc_table_views.specs.Structs.{signed32, structs_at};
ghost use Rattle.ipc_table_views.specs.Tables.{texts};
ghost use Rattle.ipc_table_views.specs.TypeSlots.{date_unit, decimal_bit_width, decimal_precision, decimal_scale, duration_unit, fixed_size_binary_byte_width, fixed_size_list_list_size, floating_point_precision, int_bit_width, int_is_signed, interval_unit, map_keys_sorted, time_bit_width, time_unit, timestamp_timezone, timestamp_unit, union_mode, union_type_ids};

use crate::number::{bytes_at, u32_at};
use crate::structs::signed32;
use crate::view::TableRef;
use ipc_devices::fault::TableFault;
use std::marker::Model;

/// The kind of a table `Null`.
pub enum NullTable {}

/// The kind of a table `Int`.
pub enum IntTable {}

/// The kind of a table `FloatingPoint`.
pub enum FloatingPointTable {}

/// The kind of a table `Binary`.
pub enum BinaryTable {}

/// The kind of a table `Utf8`.
pub enum Utf8Table {}

/// The kind of a table `Bool`.
pub enum BoolTable {}

/// The kind of a table `Decimal`.
pub enum DecimalTable {}

/// The kind of a table `Date`.
pub enum DateTable {}

/// The kind of a table `Time`.
pub enum TimeTable {}

/// The kind of a table `Timestamp`.
pub enum TimestampTable {}

/// The kind of a table `Interval`.
pub enum IntervalTable {}

/// The kind of a table `List`.
pub enum ListTable {}

/// The kind of a table `Struct_`.
pub enum StructTable {}

/// The kind of a table `Union`.
pub enum UnionTable {}

/// The kind of a table `FixedSizeBinary`.
pub enum FixedSizeBinaryTable {}

/// The kind of a table `FixedSizeList`.
pub enum FixedSizeListTable {}

/// The kind of a table `Map`.
pub enum MapTable {}

/// The kind of a table `Duration`.
pub enum DurationTable {}

/// The kind of a table `LargeBinary`.
pub enum LargeBinaryTable {}

/// The kind of a table `LargeUtf8`.
pub enum LargeUtf8Table {}

/// The kind of a table `LargeList`.
pub enum LargeListTable {}

/// A view of a table `Null`.
pub type NullRef<'a> = TableRef<'a, NullTable>;

/// A view of a table `Int`.
pub type IntRef<'a> = TableRef<'a, IntTable>;

/// A view of a table `FloatingPoint`.
pub type FloatingPointRef<'a> = TableRef<'a, FloatingPointTable>;

/// A view of a table `Binary`.
pub type BinaryRef<'a> = TableRef<'a, BinaryTable>;

/// A view of a table `Utf8`.
pub type Utf8Ref<'a> = TableRef<'a, Utf8Table>;

/// A view of a table `Bool`.
pub type BoolRef<'a> = TableRef<'a, BoolTable>;

/// A view of a table `Decimal`.
pub type DecimalRef<'a> = TableRef<'a, DecimalTable>;

/// A view of a table `Date`.
pub type DateRef<'a> = TableRef<'a, DateTable>;

/// A view of a table `Time`.
pub type TimeRef<'a> = TableRef<'a, TimeTable>;

/// A view of a table `Timestamp`.
pub type TimestampRef<'a> = TableRef<'a, TimestampTable>;

/// A view of a table `Interval`.
pub type IntervalRef<'a> = TableRef<'a, IntervalTable>;

/// A view of a table `List`.
pub type ListRef<'a> = TableRef<'a, ListTable>;

/// A view of a table `Struct_`.
pub type StructRef<'a> = TableRef<'a, StructTable>;

/// A view of a table `Union`.
pub type UnionRef<'a> = TableRef<'a, UnionTable>;

/// A view of a table `FixedSizeBinary`.
pub type FixedSizeBinaryRef<'a> = TableRef<'a, FixedSizeBinaryTable>;

/// A view of a table `FixedSizeList`.
pub type FixedSizeListRef<'a> = TableRef<'a, FixedSizeListTable>;

/// A view of a table `Map`.
pub type MapRef<'a> = TableRef<'a, MapTable>;

/// A view of a table `Duration`.
pub type DurationRef<'a> = TableRef<'a, DurationTable>;

/// A view of a table `LargeBinary`.
pub type LargeBinaryRef<'a> = TableRef<'a, LargeBinaryTable>;

/// A view of a table `LargeUtf8`.
pub type LargeUtf8Ref<'a> = TableRef<'a, LargeUtf8Table>;

/// A view of a table `LargeList`.
pub type LargeListRef<'a> = TableRef<'a, LargeListTable>;

/// A view of the type of a field: the union `Type`.
#[derive(Drop)]
pub enum TypeRef<'a> {
    /// Tag 1.
    Null(NullRef<'a>),
    /// Tag 2.
    Int(IntRef<'a>),
    /// Tag 3.
    FloatingPoint(FloatingPointRef<'a>),
    /// Tag 4.
    Binary(BinaryRef<'a>),
    /// Tag 5.
    Utf8(Utf8Ref<'a>),
    /// Tag 6.
    Bool(BoolRef<'a>),
    /// Tag 7.
    Decimal(DecimalRef<'a>),
    /// Tag 8.
    Date(DateRef<'a>),
    /// Tag 9.
    Time(TimeRef<'a>),
    /// Tag 10.
    Timestamp(TimestampRef<'a>),
    /// Tag 11.
    Interval(IntervalRef<'a>),
    /// Tag 12.
    List(ListRef<'a>),
    /// Tag 13.
    Struct(StructRef<'a>),
    /// Tag 14.
    Union(UnionRef<'a>),
    /// Tag 15.
    FixedSizeBinary(FixedSizeBinaryRef<'a>),
    /// Tag 16.
    FixedSizeList(FixedSizeListRef<'a>),
    /// Tag 17.
    Map(MapRef<'a>),
    /// Tag 18.
    Duration(DurationRef<'a>),
    /// Tag 19.
    LargeBinary(LargeBinaryRef<'a>),
    /// Tag 20.
    LargeUtf8(LargeUtf8Ref<'a>),
    /// Tag 21.
    LargeList(LargeListRef<'a>),
}

/// The size of a floating-point number: the enumeration `Precision`.
#[derive(Clone, Copy, Debug, PartialEq, Eq)]
pub enum Precision {
    Half,
    Single,
    Double,
}

fn precision_of(number: u16) -> Result<Precision, TableFault>
    ensures { result ≡ precision_of number }
{
    match number {
        0 => Ok(Precision::Half),
        1 => Ok(Precision::Single),
        2 => Ok(Precision::Double),
        _ => Err(TableFault::UnknownTag),
    }
}

/// The unit of a date: the enumeration `DateUnit`.
#[derive(Clone, Copy, Debug, PartialEq, Eq)]
pub enum DateUnit {
    Day,
    Millisecond,
}

fn date_unit_of(number: u16) -> Result<DateUnit, TableFault>
    ensures { result ≡ date_unit_of number }
{
    match number {
        0 => Ok(DateUnit::Day),
        1 => Ok(DateUnit::Millisecond),
        _ => Err(TableFault::UnknownTag),
    }
}

/// The unit of a time, a timestamp or a duration: the enumeration `TimeUnit`.
#[derive(Clone, Copy, Debug, PartialEq, Eq)]
pub enum TimeUnit {
    Second,
    Millisecond,
    Microsecond,
    Nanosecond,
}

fn time_unit_of(number: u16) -> Result<TimeUnit, TableFault>
    ensures { result ≡ time_unit_of number }
{
    match number {
        0 => Ok(TimeUnit::Second),
        1 => Ok(TimeUnit::Millisecond),
        2 => Ok(TimeUnit::Microsecond),
        3 => Ok(TimeUnit::Nanosecond),
        _ => Err(TableFault::UnknownTag),
    }
}

/// The unit of an interval: the enumeration `IntervalUnit`.
#[derive(Clone, Copy, Debug, PartialEq, Eq)]
pub enum IntervalUnit {
    YearMonth,
    DayTime,
    MonthDayNano,
}

fn interval_unit_of(number: u16) -> Result<IntervalUnit, TableFault>
    ensures { result ≡ interval_unit_of number }
{
    match number {
        0 => Ok(IntervalUnit::YearMonth),
        1 => Ok(IntervalUnit::DayTime),
        2 => Ok(IntervalUnit::MonthDayNano),
        _ => Err(TableFault::UnknownTag),
    }
}

/// The layout of a union: the enumeration `UnionMode`.
#[derive(Clone, Copy, Debug, PartialEq, Eq)]
pub enum UnionMode {
    Sparse,
    Dense,
}

fn union_mode_of(number: u16) -> Result<UnionMode, TableFault>
    ensures { result ≡ union_mode_of number }
{
    match number {
        0 => Ok(UnionMode::Sparse),
        1 => Ok(UnionMode::Dense),
        _ => Err(TableFault::UnknownTag),
    }
}

impl<'a> TableRef<'a, IntTable> {
    /// Returns the width in bits, or 0 if absent.
    pub fn bit_width(&self) -> Result<i32, TableFault>
        ensures { result ≡ int_bit_width self.now }
    {
        self.i32(0, 0)
    }

    /// Returns whether the numbers are signed, or `false` if absent.
    pub fn is_signed(&self) -> Result<bool, TableFault>
        ensures { result ≡ int_is_signed self.now }
    {
        self.bool(1)
    }
}

impl<'a> TableRef<'a, FloatingPointTable> {
    /// Returns the precision, or `Half` if absent.
    pub fn precision(&self) -> Result<Precision, TableFault>
        ensures { result ≡ floating_point_precision self.now }
    {
        precision_of(self.u16(0, 0)?)
    }
}

impl<'a> TableRef<'a, DecimalTable> {
    /// Returns the number of decimal digits, or 0 if absent.
    pub fn precision(&self) -> Result<i32, TableFault>
        ensures { result ≡ decimal_precision self.now }
    {
        self.i32(0, 0)
    }

    /// Returns the number of digits after the point, or 0 if absent.
    pub fn scale(&self) -> Result<i32, TableFault>
        ensures { result ≡ decimal_scale self.now }
    {
        self.i32(1, 0)
    }

    /// Returns the width in bits, or 128 if absent.
    pub fn bit_width(&self) -> Result<i32, TableFault>
        ensures { result ≡ decimal_bit_width self.now }
    {
        self.i32(2, 128)
    }
}

impl<'a> TableRef<'a, DateTable> {
    /// Returns the unit, or milliseconds if absent.
    pub fn unit(&self) -> Result<DateUnit, TableFault>
        ensures { result ≡ date_unit self.now }
    {
        date_unit_of(self.u16(0, 1)?)
    }
}

impl<'a> TableRef<'a, TimeTable> {
    /// Returns the unit, or milliseconds if absent.
    pub fn unit(&self) -> Result<TimeUnit, TableFault>
        ensures { result ≡ time_unit self.now }
    {
        time_unit_of(self.u16(0, 1)?)
    }

    /// Returns the width in bits, or 32 if absent.
    pub fn bit_width(&self) -> Result<i32, TableFault>
        ensures { result ≡ time_bit_width self.now }
    {
        self.i32(1, 32)
    }
}

impl<'a> TableRef<'a, TimestampTable> {
    /// Returns the unit, or seconds if absent.
    pub fn unit(&self) -> Result<TimeUnit, TableFault>
        ensures { result ≡ timestamp_unit self.now }
    {
        time_unit_of(self.u16(0, 0)?)
    }

    /// Returns the timezone, or `None` if absent.
    pub fn timezone(&self) -> Result<Option<&'a str>, TableFault>
        ensures { texts result ≡ timestamp_timezone self.now }
    {
        self.text(1)
    }
}

impl<'a> TableRef<'a, IntervalTable> {
    /// Returns the unit, or `YearMonth` if absent.
    pub fn unit(&self) -> Result<IntervalUnit, TableFault>
        ensures { result ≡ interval_unit self.now }
    {
        interval_unit_of(self.u16(0, 0)?)
    }
}

impl<'a> TableRef<'a, UnionTable> {
    /// Returns the mode, or sparse if absent.
    pub fn mode(&self) -> Result<UnionMode, TableFault>
        ensures { result ≡ union_mode self.now }
    {
        union_mode_of(self.u16(0, 0)?)
    }

    /// Returns the type ids of the children, or `None` for 0, 1, 2 and so on.
    pub fn type_ids(&self) -> Result<Option<TypeIds<'a>>, TableFault>
        ensures { result ≡ union_type_ids self.now }
    {
        match self.target(1)? {
            Some(place) => Ok(Some(TypeIds::open(self.message(), place)?)),
            None => Ok(None),
        }
    }
}

impl<'a> TableRef<'a, FixedSizeBinaryTable> {
    /// Returns the number of bytes of a slot, or 0 if absent.
    pub fn byte_width(&self) -> Result<i32, TableFault>
        ensures { result ≡ fixed_size_binary_byte_width self.now }
    {
        self.i32(0, 0)
    }
}

impl<'a> TableRef<'a, FixedSizeListTable> {
    /// Returns the number of child slots in each list, or 0 if absent.
    pub fn list_size(&self) -> Result<i32, TableFault>
        ensures { result ≡ fixed_size_list_list_size self.now }
    {
        self.i32(0, 0)
    }
}

impl<'a> TableRef<'a, MapTable> {
    /// Returns whether the keys within a slot are sorted, or `false` if absent.
    pub fn keys_sorted(&self) -> Result<bool, TableFault>
        ensures { result ≡ map_keys_sorted self.now }
    {
        self.bool(0)
    }
}

impl<'a> TableRef<'a, DurationTable> {
    /// Returns the unit, or milliseconds if absent.
    pub fn unit(&self) -> Result<TimeUnit, TableFault>
        ensures { result ≡ duration_unit self.now }
    {
        time_unit_of(self.u16(0, 1)?)
    }
}

/// The type ids of the children of a union.
#[derive(Drop)]
pub struct TypeIds<'a> {
    message: &'a [u8],
    place: usize,
    count: usize,
}

impl<'a> Model for TypeIds<'a> {
    ghost use Rattle.std.specs.Prelude.{◌+◌, ◌*◌, ◌≤◌, List, length, ℤ};
    ghost use Rattle.ipc_table_views.specs.Structs.{signed32, structs_from};

    ghost Value = { List ℤ };

    ghost view = { λ v. structs_from (signed32 v.message.now) 4 v.count v.place };

    ghost invariant = { λ v. v.place + 4 * v.count ≤ length v.message.now };
}

#[tactic(auto, using(crate::proofs::StructsOf::structs))]
impl<'a> TypeIds<'a> {
    #[tactic(auto, unfolding(crate::specs::Structs::structs_at, crate::specs::Tables::vector_at))]
    pub(crate) fn open(message: &'a [u8], place: usize) -> Result<TypeIds<'a>, TableFault>
        ensures { result ≡ structs_at signed32 4 message.now place }
    {
        let count = u32_at(message, place)? as usize;
        bytes_at(message, place + 4, 4 * count)?;
        Ok(TypeIds {
            message,
            place: place + 4,
            count,
        })
    }

    /// Returns the number of ids.
    pub fn len(&self) -> usize
        ensures { result ≡ length self.now }
    {
        self.count
    }

    /// Returns whether there is no id.
    pub fn is_empty(&self) -> bool
        ensures { IsTrue result ↔ (length self.now ≡ 0) }
    {
        self.count == 0
    }

    /// Returns the id at `index`.
    pub fn get(&self, index: usize) -> i32
        requires { index < length self.now }
        ensures { slice_get self.now index ≡ Some result }
    {
        signed32(self.message, self.place + 4 * index)
    }
}
