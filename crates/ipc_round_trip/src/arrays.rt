//! Arrays that were appended to a batch are read back.
ghost use Rattle.ipc_round_trip.specs.WrittenArrays.{ChosenArraysLaw, ReadArraysLaw, SameArraysLaw, WrittenArrayLaw, WrittenArraysLaw};

/// Reading a batch of appended arrays gives exactly their types and slots.
///
/// Arrays of any kind are appended by `write` of `ipc_encode`, in either byte order. A record batch
/// of version 5 that lists these parts is read by `read_record_batch` of `ipc_read`, wherever its
/// body begins. The fields have the arrays' types in the normal form. Then, reading from memory,
///
/// - the columns have the types of the fields and exactly the arrays' slots;
/// - with a projection and a limit they are the first rows of the requested columns;
/// - if the fields have the arrays' own types, the types are exactly the same;
/// - the only errors are `Memory` and `Io`.
///
/// The arrays have equal lengths. The reader has the values of their dictionary fields under the
/// ids.
pub fn written_arrays_are_read()
    ensures array { WrittenArrayLaw }
    ensures arrays { WrittenArraysLaw }
    ensures read { ReadArraysLaw }
    ensures chosen { ChosenArraysLaw }
    ensures same { SameArraysLaw }
{}
