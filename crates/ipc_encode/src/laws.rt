//! Theorems about encoded arrays and batches. The functions do nothing.
ghost use Rattle.ipc_encode.specs.Appending.{SameMeaningLaw};
ghost use Rattle.ipc_encode.specs.EncodedLaws.{EncodedRecordLaw, EncodedValuesLaw};
ghost use Rattle.ipc_encode.specs.ShortMetadata.{ShortMetadataLaw};

/// Two arrays with the same data type and slots mean the same column.
///
/// Either may be a slice.
pub fn equal_slots_mean_the_same()
    ensures { SameMeaningLaw }
{}

/// The metadata of each batch of a writable schema have at most `2^31 - 1` bytes.
///
/// The batches are those of its columns, and those of the values of its dictionaries.
pub fn metadata_of_batches_are_short()
    ensures { ShortMetadataLaw }
{}

/// An encoded record batch means its columns, in each stream of their types.
pub fn encoded_records_mean_their_columns()
    ensures { EncodedRecordLaw }
{}

/// An encoded dictionary batch gives its id the values.
pub fn encoded_values_are_known()
    ensures { EncodedValuesLaw }
{}
