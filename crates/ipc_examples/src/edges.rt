//! Worked examples that show what each name in the definitions decides.
//!
//! They have types, schemas, messages and blocks slot by slot, and both sides of each limit.

ghost use Rattle.ipc_examples.specs.AcceptedRows.{EdgeRows, EncodedRows};
ghost use Rattle.ipc_examples.specs.ArrayRows.{CaseRows, KeyTypeRows, KnownRows, OfferWidthRows};
ghost use Rattle.ipc_examples.specs.BatchRows.{BehindRows, BodyRows, OrderBatchRows, VersionBatchRows};
ghost use Rattle.ipc_examples.specs.FileRows.{BlockRows, FooterPairRows, FooterRows};
ghost use Rattle.ipc_examples.specs.KindRows.{FixedRows, KeyRows, NestedKindRows, OffsetRows, PairRows, UnionEdgeRows, WidthRows};
ghost use Rattle.ipc_examples.specs.MessageRows.{CountRows, FirstPlaceRows, FrameRows, RecordRows, VersionRows, WhereRows};
ghost use Rattle.ipc_examples.specs.SchemaRows.{ChildRows, EncodingRows, FieldRows, IntegerRows, LastLevelRows, LevelRows, PastLevelRows, PlainRows, SizeRows, TimeRows};
ghost use Rattle.ipc_examples.specs.WritableRows.{NestedTypeRows, PlainTypeRows, WritableSchemaRows};
ghost use Rattle.ipc_examples.specs.WriterRows.{RunRows};

/// Types without children in a schema's tables.
pub fn types_of_schemas()
    ensures integers { IntegerRows }
    ensures plain { PlainRows }
    ensures times { TimeRows }
    ensures sizes { SizeRows }
{}

/// Children, dictionaries and extensions of a schema's fields, and their other slots.
#[tactic(auto, using(crate::proofs::SchemaRows::encoding_rows))]
pub fn fields_of_schemas()
    ensures children { ChildRows }
    ensures encodings { EncodingRows }
    ensures fields { FieldRows }
{}

/// Byte orders of schemas, their levels, and the number of visited fields.
#[tactic(auto, using(crate::proofs::SchemaRows::level_rows, crate::proofs::SchemaRows::last_level_rows, crate::proofs::SchemaRows::past_level_rows))]
pub fn levels_of_schemas()
    ensures some { LevelRows }
    ensures last { LastLevelRows }
    ensures past { PastLevelRows }
{}

/// The first value of each type, bytes of a fixed size, bits and validities.
#[tactic(auto, using(crate::proofs::KindRows::width_rows, crate::proofs::KindRows::fixed_rows))]
pub fn values_of_types()
    ensures widths { WidthRows }
    ensures fixed { FixedRows }
{}

/// Offsets and keys of each width.
#[tactic(auto, using(crate::proofs::KindRows::offset_rows, crate::proofs::KindRows::key_rows))]
pub fn offsets_and_keys()
    ensures offsets { OffsetRows }
    ensures keys { KeyRows }
{}

/// The children of unions, maps and structs, and the entries of types with children.
#[tactic(auto, using(crate::proofs::KindRows::union_edge_rows, crate::proofs::KindRows::pair_rows, crate::proofs::KindRows::nested_kind_rows))]
pub fn children_of_columns()
    ensures unions { UnionEdgeRows }
    ensures pairs { PairRows }
    ensures types { NestedKindRows }
{}

/// Frames, record messages slot by slot, and versions.
#[tactic(auto, using(crate::proofs::MessageRows::frame_rows, crate::proofs::MessageRows::record_rows, crate::proofs::MessageRows::version_rows))]
pub fn slots_of_messages()
    ensures frames { FrameRows }
    ensures records { RecordRows }
    ensures versions { VersionRows }
{}

/// The most dictionary messages, and which field of an id names its value type.
#[tactic(auto, using(crate::proofs::MessageRows::count_rows, crate::proofs::MessageRows::first_place_rows, crate::proofs::MessageRows::where_rows))]
pub fn messages_of_dictionaries()
    ensures counts { CountRows }
    ensures first_places { FirstPlaceRows }
    ensures places { WhereRows }
{}

/// A file's footer, its pairs and its blocks.
#[tactic(auto, using(crate::proofs::FileRows::footer_rows, crate::proofs::FileRows::footer_pair_rows, crate::proofs::FileRows::block_rows))]
pub fn footers_and_blocks()
    ensures footers { FooterRows }
    ensures pairs { FooterPairRows }
    ensures blocks { BlockRows }
{}

/// Types and schemas that can be written, and others that can't.
#[tactic(auto, using(crate::proofs::WritableRows::plain_type_rows))]
pub fn writable_schemas()
    ensures plain { PlainTypeRows }
    ensures nested { NestedTypeRows }
    ensures schemas { WritableSchemaRows }
{}

/// Chunks at the limits of what a writer accepts, and columns encoded without a schema.
#[tactic(auto, using(crate::proofs::AcceptedRows::edge_rows, crate::proofs::AcceptedRows::encoded_rows))]
pub fn chunks_at_the_edges()
    ensures edges { EdgeRows }
    ensures encoded { EncodedRows }
{}

/// The arrays of columns of keys and large lists, and their values.
///
/// Also what arrays of each width offer to a writer.
#[tactic(auto, using(crate::proofs::ArrayRows::key_type_rows, crate::proofs::ArrayRows::known_rows, crate::proofs::ArrayRows::case_rows, crate::proofs::ArrayRows::offer_width_rows))]
pub fn arrays_of_types()
    ensures keys { KeyTypeRows }
    ensures known { KnownRows }
    ensures cases { CaseRows }
    ensures widths { OfferWidthRows }
{}

/// Columns after others, and the version and byte order by which a batch is read.
#[tactic(auto, using(crate::proofs::BatchRows::version_batch_rows, crate::proofs::BatchRows::order_batch_rows, crate::proofs::BatchRows::behind_rows))]
pub fn batches_in_messages()
    ensures versions { VersionBatchRows }
    ensures orders { OrderBatchRows }
    ensures columns { BehindRows }
{}

/// The offset of a batch's body in a file, and its buffers' most bytes.
#[tactic(auto, using(crate::proofs::BatchRows::body_rows))]
pub fn bodies_in_files()
    ensures { BodyRows }
{}

/// Which lists of calls of a writer there are, and what they write.
#[tactic(auto, using(crate::proofs::WriterRows::run_rows))]
pub fn lists_of_calls()
    ensures { RunRows }
{}
