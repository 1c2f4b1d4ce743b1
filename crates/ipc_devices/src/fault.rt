//! Errors of reading and writing.
ghost use Rattle.std.specs.Prelude.{◌≡◌};
ghost use Rattle.ipc_devices.specs.declared.fault.Fault.TheVariants.{OutOfSpec, NotYetImplemented, Schema, Argument, State, Io, Memory, Lower};

use lower::error::Error as ArrayError;
use std::alloc::{AllocError, AllocFailed};
use std::io;
use thiserror::Error;

/// The result of a call that can fail with a [`Fault`].
pub type Result<T> = std::result::Result<T, Fault>;

/// Why a call failed.
#[derive(Debug, Drop, Error)]
pub enum Fault {
    /// The bytes break a rule of the Arrow columnar format.
    #[error("out of spec: {0}")]
    OutOfSpec(OutOfSpecKind),
    /// The input ended early.
    ///
    /// It is shorter than it states, ends where a schema message must be, or is too short for a
    /// file.
    #[error("the input ended early")]
    Ended,
    /// The bytes or the arguments need a feature that isn't supported.
    #[error("not yet implemented: {0}")]
    NotYetImplemented(Nyi),
    /// A schema that is read breaks a rule.
    #[error("bad schema: {0}")]
    Schema(SchemaFault),
    /// An argument breaks a rule of the call, or of one it makes.
    ///
    /// A writer's call changed nothing then. Readers return it if the columns of a batch have
    /// different numbers of rows.
    #[error("{0}")]
    Argument(ArgFault),
    /// A writer isn't in a state in which the call is allowed. The call changed nothing.
    #[error("{0}")]
    State(StateFault),
    /// More than 65,536 dictionary messages precede one record batch.
    #[error("more than 65536 dictionary messages before a record batch")]
    TooManyDictionaries,
    /// A device returned this error during the call.
    ///
    /// Memory that is written to does so if it can't grow.
    #[error("input or output failed: {0}")]
    Io(io::Error),
    /// An allocation failed, or shared memory has too many owners to count.
    #[error("no memory")]
    Memory,
    /// The parts of a column don't make an array; this is the array's error.
    ///
    /// Readers return it if a child is shorter or longer than its parent needs.
    #[error("bad array: {0}")]
    Lower(ArrayError),
}

/// The rules of the Arrow columnar format that bytes can break.
///
/// Arrow columnar format, "Serialization and Interprocess Communication (IPC)".
#[derive(Debug, Drop, PartialEq, Eq, Error)]
pub enum OutOfSpecKind {
    /// A file doesn't begin with `ARROW1`.
    #[error("the file does not begin with ARROW1")]
    InvalidHeader,
    /// A file doesn't end with `ARROW1`.
    #[error("the file does not end with ARROW1")]
    InvalidFooter,
    /// A number that must be at least 0 is negative.
    ///
    /// It is one of these:
    ///
    /// - The length of a footer.
    /// - The length in the prefix of a message, in a stream or at a dictionary block.
    /// - The offset or the metadata length of a record block.
    /// - The length of a node or a buffer, or the offset of a buffer.
    #[error("a length or an offset is negative")]
    NegativeFooterLength,
    /// The root table of a footer, or its key-value metadata, is malformed.
    #[error("the footer is ill-made: {0}")]
    InvalidFlatbufferFooter(TableFault),
    /// A footer has no record blocks.
    #[error("the footer has no record batches")]
    MissingRecordBatches,
    /// The record blocks of a footer are malformed.
    #[error("the footer's record batches are ill-made: {0}")]
    InvalidFlatbufferRecordBatches(TableFault),
    /// A footer has no schema.
    #[error("the footer has no schema")]
    MissingSchema,
    /// The schema of a footer can't be opened.
    #[error("the footer's schema is ill-made: {0}")]
    InvalidFlatbufferSchema(TableFault),
    /// A schema has no vector of fields.
    #[error("the schema has no fields")]
    MissingFields,
    /// The dictionary blocks of a footer are malformed.
    #[error("the footer's dictionaries are ill-made: {0}")]
    InvalidFlatbufferDictionaries(TableFault),
    /// From arrow2; no call returns it.
    ///
    /// A block consists of numbers alone, and vectors of blocks have their own errors.
    #[error("a block is ill-made: {0}")]
    InvalidFlatbufferBlock(TableFault),
    /// The root table of a message is malformed.
    #[error("the message is ill-made: {0}")]
    InvalidFlatbufferMessage(TableFault),
    /// A message has no header.
    #[error("the message has no header")]
    MissingMessageHeader,
    /// The header of a message is malformed.
    #[error("the message's header is ill-made: {0}")]
    InvalidFlatbufferHeader(TableFault),
    /// A position or a length is negative.
    ///
    /// It is one of these:
    ///
    /// - The length of a body in a stream.
    /// - The offset or the metadata length of a dictionary block.
    /// - The length in the prefix of the message at a record block.
    /// - Any number of a block of a file to which chunks are appended.
    #[error("a position or a length is negative")]
    UnexpectedNegativeInteger,
    /// A message isn't the record batch or the dictionary batch that is due.
    #[error("the message is of an unexpected type")]
    UnexpectedMessageType,
    /// A record batch has no vector of buffers.
    #[error("the record batch has no buffers")]
    MissingMessageBuffers,
    /// The buffers of a record batch are malformed.
    #[error("the record batch's buffers are ill-made: {0}")]
    InvalidFlatbufferBuffers(TableFault),
    /// A record batch has no nodes, or fewer than its columns need.
    #[error("the record batch has too few nodes")]
    MissingMessageNodes,
    /// The nodes of a record batch are malformed.
    #[error("the record batch's nodes are ill-made: {0}")]
    InvalidFlatbufferNodes(TableFault),
    /// The body length of a message is malformed.
    #[error("the message's body length is ill-made: {0}")]
    InvalidFlatbufferBodyLength(TableFault),
    /// A dictionary batch has no record batch.
    #[error("the dictionary batch has no data")]
    MissingData,
    /// The record batch of a dictionary batch is malformed.
    #[error("the dictionary batch's data is ill-made: {0}")]
    InvalidFlatbufferData(TableFault),
    /// The metadata version of a message is malformed.
    #[error("the message's version is ill-made: {0}")]
    InvalidFlatbufferVersion(TableFault),
    /// The compression of a record batch is malformed.
    #[error("the record batch's compression is ill-made: {0}")]
    InvalidFlatbufferCompression(TableFault),
    /// A record batch has fewer buffers than its columns need.
    #[error("the record batch has too few buffers")]
    ExpectedBuffer,
    /// A buffer is shorter than its elements need.
    #[error("a buffer of {buffer_length} bytes is too short for {length} elements of {type_name}, which need {required_number_of_bytes}")]
    InvalidBuffer {
        /// The number of elements that are needed.
        length: usize,
        /// The name of the elements' type.
        type_name: &'static str,
        /// The number of bytes that these elements need.
        required_number_of_bytes: usize,
        /// The length of the buffer in bytes.
        buffer_length: usize,
    },
    /// The buffers of a record batch are longer than the body or file.
    #[error("buffers of {buffers_size} bytes do not fit into {file_size} bytes")]
    InvalidBuffersLength {
        /// The sum of the buffers' lengths in bytes, at most `u64::MAX`.
        buffers_size: u64,
        /// The length in bytes of the file, or of the body in a stream.
        file_size: u64,
    },
    /// A bitmap is shorter than its slots need.
    #[error("a bitmap of {number_of_bits} bits is too short for {length}")]
    InvalidBitmap {
        /// The number of bits that are needed.
        length: usize,
        /// The number of bits in the buffer.
        number_of_bits: usize,
    },
    /// The delta flag of a dictionary batch is malformed.
    #[error("the dictionary batch's isDelta is ill-made: {0}")]
    InvalidFlatbufferIsDelta(TableFault),
    /// The id of a dictionary batch is malformed.
    #[error("the dictionary batch's id is ill-made: {0}")]
    InvalidFlatbufferId(TableFault),
    /// No dictionary has this id.
    #[error("the dictionary {requested_id} is unknown")]
    InvalidId {
        /// The id that was requested.
        requested_id: i64,
    },
    /// The dictionary with this id has values of another type than the field.
    #[error("the dictionary {requested_id} has another value type")]
    InvalidIdDataType {
        /// The id that was requested.
        requested_id: i64,
    },
    /// The fixed size of a column that is read is 0.
    #[error("a column of fixed size 0 has no slots")]
    InvalidDataType,
}

/// Features that aren't supported.
#[derive(Debug, Clone, Copy, PartialEq, Eq, Error)]
pub enum Nyi {
    /// Compressed buffers.
    #[error("compressed buffers")]
    Compressed,
    /// Columns of floating-point numbers.
    #[error("columns of floating-point numbers")]
    Float,
    /// Dictionary batches that add to a dictionary.
    #[error("delta dictionaries")]
    Delta,
    /// Files of Feather version 1.
    #[error("Feather V1 files")]
    FeatherV1,
}

/// How the tables of a message or a footer can be malformed.
#[derive(Debug, Clone, Copy, PartialEq, Eq, Error)]
pub enum TableFault {
    /// An offset or a length leads outside the bytes, also one of a vtable.
    #[error("an offset leads outside")]
    Outside,
    /// A vtable is shorter than 4 bytes, the length of its own header.
    #[error("a vtable is ill-made")]
    Vtable,
    /// The number of an enumeration or of a union's variant is unknown.
    #[error("a tag is unknown")]
    UnknownTag,
    /// A text isn't UTF-8.
    #[error("a text is not UTF-8")]
    Utf8,
    /// A union has a tag but no value.
    #[error("a value is missing")]
    MissingValue,
}

/// The rules that a schema can break.
#[derive(Debug, Clone, Copy, PartialEq, Eq, Error)]
pub enum SchemaFault {
    /// A field has no name.
    #[error("a field has no name")]
    NoName,
    /// A field has no type.
    #[error("a field has no type")]
    NoType,
    /// A list, a map, a struct or a union has no child.
    #[error("a nested field has no child")]
    NoChild,
    /// A dictionary has no type of its keys.
    #[error("a dictionary has no index type")]
    NoIndexType,
    /// The width of an integer isn't 8, 16, 32 or 64 bits.
    #[error("a whole number has another width than 8, 16, 32 or 64 bits")]
    BadInteger,
    /// The width of a time doesn't fit its unit.
    #[error("the width and the unit of a time do not go together")]
    BadTime,
    /// A fixed size is negative.
    #[error("a fixed size is negative")]
    BadSize,
    /// A decimal isn't of 128 or 256 bits, or has negative precision or scale.
    #[error("a decimal has another width than 128 or 256 bits, or a negative precision or scale")]
    BadDecimal,
    /// The fields are nested more than 64 levels deep.
    #[error("the fields have more than 64 levels")]
    TooDeep,
    /// More field tables are visited than the message has bytes.
    #[error("there are more field tables than bytes")]
    TooManyFields,
    /// Another message, or the end of the stream, is where a schema must be.
    #[error("the message is not a schema")]
    NotASchema,
    /// A table of the schema is malformed.
    #[error("a table is ill-made: {0}")]
    Table(TableFault),
}

/// The rules that an argument can break.
#[derive(Debug, Clone, Copy, PartialEq, Eq, Error)]
pub enum ArgFault {
    /// The columns of a chunk have different lengths.
    #[error("Chunk require all its arrays to have an equal number of rows")]
    UnequalRows,
    /// The schema can't be written.
    #[error("the schema is not writable")]
    NotWritable,
    /// The ids don't have the shape of the fields.
    #[error("the ids do not have the shape of the fields")]
    FieldsShape,
    /// The ids are not those that the writer started with.
    ///
    /// Also: the schema and the ids of a stream are not those of the file to which its chunks are
    /// appended.
    #[error("the ids are not those that the writer started with")]
    FieldsDiffer,
    /// A chunk has another number of columns than the schema.
    #[error("the chunk has another number of columns than the schema")]
    ColumnCount,
    /// A column has another type than its field.
    #[error("a column has another type than its field")]
    ColumnType,
    /// Columns with the same dictionary id have different values.
    #[error("columns of the dictionary {0} have different values")]
    SharedDictionary(i64),
    /// Other values were already written for a dictionary, and a file can't replace them.
    #[error("the dictionary {0} was already written with other values")]
    DictionaryReplaced(i64),
    /// An array is longer than `i64::MAX`.
    #[error("an array is too long")]
    TooLong,
    /// A length or a position doesn't fit its number, or is above a limit.
    ///
    /// The limits are `2^30` for the weight of a schema with a file's key-value metadata, and
    /// `2^25` for the blocks of a file.
    #[error("a length or a position is too large")]
    TooLarge,
    /// A file to which chunks are to be appended has no record blocks.
    #[error("the file has no record blocks")]
    NoRecordBlocks,
}

/// The states in which a writer refuses a call.
#[derive(Debug, Clone, Copy, PartialEq, Eq, Error)]
pub enum StateFault {
    /// The writer wasn't started.
    #[error("the writer was not started")]
    NotStarted,
    /// The writer was already started.
    #[error("the writer was already started")]
    AlreadyStarted,
    /// The writer was already finished.
    #[error("the writer was already finished")]
    Finished,
    /// A device failed in an earlier call.
    #[error("the writer failed")]
    Failed,
}

impl From<OutOfSpecKind> for Fault {
    ghost from_gives = { λ kind f. f ≡ OutOfSpec kind };

    fn from(kind: OutOfSpecKind) -> Fault {
        Fault::OutOfSpec(kind)
    }
}

impl From<Nyi> for Fault {
    ghost from_gives = { λ form f. f ≡ NotYetImplemented form };

    fn from(form: Nyi) -> Fault {
        Fault::NotYetImplemented(form)
    }
}

impl From<SchemaFault> for Fault {
    ghost from_gives = { λ fault f. f ≡ Schema fault };

    fn from(fault: SchemaFault) -> Fault {
        Fault::Schema(fault)
    }
}

impl From<ArgFault> for Fault {
    ghost from_gives = { λ fault f. f ≡ Argument fault };

    fn from(fault: ArgFault) -> Fault {
        Fault::Argument(fault)
    }
}

impl From<StateFault> for Fault {
    ghost from_gives = { λ fault f. f ≡ State fault };

    fn from(fault: StateFault) -> Fault {
        Fault::State(fault)
    }
}

impl From<ArrayError> for Fault {
    ghost from_gives = { λ e f. f ≡ Lower e };

    fn from(e: ArrayError) -> Fault {
        Fault::Lower(e)
    }
}

impl From<io::Error> for Fault {
    ghost from_gives = { λ e f. f ≡ Io e };

    fn from(e: io::Error) -> Fault {
        Fault::Io(e)
    }
}

impl From<AllocError> for Fault {
    ghost from_gives = { λ _ f. f ≡ Memory };

    fn from(_e: AllocError) -> Fault {
        Fault::Memory
    }
}

impl<T: Drop> From<AllocFailed<T>> for Fault {
    ghost from_gives = { λ _ f. f ≡ Memory };

    fn from(_e: AllocFailed<T>) -> Fault {
        Fault::Memory
    }
}

impl PartialEq for Fault {
    ghost use Rattle.ipc_devices.specs.FaultEq.{same_fault, same_fault_per};

    ghost eq = { same_fault };

    ghost laws = { same_fault_per };

    /// Returns whether both are the same variant with the same content.
    ///
    /// Errors of devices are compared by their kinds.
    fn eq(&self, other: &Fault) -> bool {
        match (self, other) {
            (Fault::OutOfSpec(one), Fault::OutOfSpec(two)) => one == two,
            (Fault::Ended, Fault::Ended) => true,
            (Fault::NotYetImplemented(one), Fault::NotYetImplemented(two)) => one == two,
            (Fault::Schema(one), Fault::Schema(two)) => one == two,
            (Fault::Argument(one), Fault::Argument(two)) => one == two,
            (Fault::State(one), Fault::State(two)) => one == two,
            (Fault::TooManyDictionaries, Fault::TooManyDictionaries) => true,
            (Fault::Io(one), Fault::Io(two)) => one.kind() == two.kind(),
            (Fault::Memory, Fault::Memory) => true,
            (Fault::Lower(one), Fault::Lower(two)) => one == two,
            _ => false,
        }
    }
}

impl Eq for Fault {
    ghost use Rattle.ipc_devices.specs.FaultEq.{same_fault_equiv};

    ghost laws = { same_fault_equiv };
}
