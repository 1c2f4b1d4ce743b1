//! Theorems on dictionaries: values under an id that no field names change nothing.

ghost use Rattle.ipc_model.specs.AgreeLaws.{BatchAgreeLaw, BlockAgreeLaw, ColumnAgreeLaw, DictionaryAgreeLaw, DictionaryBlockAgreeLaw, FieldsAgreeLaw, ItemAgreeLaw, RecordAgreeLaw, StreamAgreeLaw};

/// A column depends only on the dictionaries of the ids that it names.
///
/// Dictionaries that agree under each id of a schema's fields do so for each of its columns.
pub fn agreeing_columns()
    ensures fields { FieldsAgreeLaw }
    ensures columns { ColumnAgreeLaw }
{}

/// A batch depends only on the dictionaries of the ids that the chosen columns name.
///
/// A dictionary batch gives the same values for dictionaries that agree under each id of the
/// schema's fields.
pub fn agreeing_batches()
    ensures entries { BatchAgreeLaw }
    ensures records { RecordAgreeLaw }
    ensures dictionaries { DictionaryAgreeLaw }
{}

/// A stream depends only on the dictionaries of the ids of its schema's fields.
///
/// So does its next item.
pub fn agreeing_streams()
    ensures front { ItemAgreeLaw }
    ensures all { StreamAgreeLaw }
{}

/// A block of a file depends only on the dictionaries of its schema's ids.
pub fn agreeing_blocks()
    ensures records { BlockAgreeLaw }
    ensures dictionaries { DictionaryBlockAgreeLaw }
{}
