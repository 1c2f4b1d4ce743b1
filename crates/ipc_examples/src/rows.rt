//! Worked examples: columns, messages and streams byte by byte, and what they mean.

ghost use Rattle.ipc_examples.specs.AcceptedRows.{AcceptedRows};
ghost use Rattle.ipc_examples.specs.ColumnRows.{CountRows, FlatRows, ListRows, MapRows, StructRows, TextRows, UnionRows};
ghost use Rattle.ipc_examples.specs.CutRows.{BitRows, ChildCutRows, LengthCutRows, ListCutRows};
ghost use Rattle.ipc_examples.specs.DictionaryRows.{DictionaryRows, NestedRows, SharedRows};
ghost use Rattle.ipc_examples.specs.FileRows.{FileRows};
ghost use Rattle.ipc_examples.specs.HeldRows.{HeldRows};
ghost use Rattle.ipc_examples.specs.NeededRows.{NeededRows};
ghost use Rattle.ipc_examples.specs.OfferRows.{ChunkRows, LengthRows, FilledRows};
ghost use Rattle.ipc_examples.specs.SlicedRows.{SlicedRows};
ghost use Rattle.ipc_examples.specs.StreamRows.{AloneRows, ChosenRows, DemoRows, MetadataRows, SmallestRows};
ghost use Rattle.ipc_examples.specs.WeightRows.{PlaceRows, WeightRows};

/// Numbers, bits and nulls.
#[tactic(auto, using(crate::proofs::ColumnRows::flat_rows))]
pub fn flat_columns()
    ensures { FlatRows }
{}

/// Bytes and texts.
#[tactic(auto, using(crate::proofs::ColumnRows::text_rows))]
pub fn text_columns()
    ensures { TextRows }
{}

/// Lists of any length and of a fixed size.
#[tactic(auto, using(crate::proofs::ColumnRows::list_rows))]
pub fn list_columns()
    ensures { ListRows }
{}

/// Structs.
#[tactic(auto, using(crate::proofs::ColumnRows::struct_rows))]
pub fn struct_columns()
    ensures { StructRows }
{}

/// Maps.
#[tactic(auto, using(crate::proofs::ColumnRows::map_rows))]
pub fn map_columns()
    ensures { MapRows }
{}

/// Unions of both modes and of all versions.
#[tactic(auto, using(crate::proofs::ColumnRows::union_rows, crate::proofs::ColumnRows::count_rows))]
pub fn union_columns()
    ensures rows { UnionRows }
    ensures counts { CountRows }
{}

/// The smallest schema message.
#[tactic(auto, using(crate::proofs::StreamRows::smallest_rows))]
pub fn smallest_schema()
    ensures { SmallestRows }
{}

/// Metadata, extensions and the normal form.
#[tactic(auto, using(crate::proofs::StreamRows::metadata_rows))]
pub fn metadata_of_fields()
    ensures { MetadataRows }
{}

/// A stream of two columns of numbers, whole and cut.
#[tactic(auto, using(crate::proofs::StreamRows::demo_rows))]
pub fn demo_stream()
    ensures { DemoRows }
{}

/// A stream of the smallest schema, which has no messages.
#[tactic(auto, using(crate::proofs::StreamRows::alone_rows))]
pub fn schema_alone()
    ensures { AloneRows }
{}

/// Batches under a projection.
#[tactic(auto, using(crate::proofs::StreamRows::chosen_rows))]
pub fn chosen_columns()
    ensures { ChosenRows }
{}

/// The weights of schemas, and their dictionary fields.
#[tactic(auto, using(crate::proofs::WeightRows::weight_rows, crate::proofs::WeightRows::place_rows))]
pub fn weights_and_places()
    ensures weights { WeightRows }
    ensures places { PlaceRows }
{}

/// A file of one record.
#[tactic(auto, using(crate::proofs::FileRows::file_rows))]
pub fn demo_file()
    ensures { FileRows }
{}

/// Streams with dictionaries: one column, two columns of one id, and dictionaries in dictionaries.
#[tactic(auto, using(crate::proofs::DictionaryRows::dictionary_rows, crate::proofs::DictionaryRows::shared_rows, crate::proofs::DictionaryRows::nested_rows))]
pub fn streams_with_dictionaries()
    ensures replaced { DictionaryRows }
    ensures shared { SharedRows }
    ensures nested { NestedRows }
{}

/// A dense union that is written as a slice.
#[tactic(auto, using(crate::proofs::SlicedRows::sliced_rows))]
pub fn sliced_union()
    ensures { SlicedRows }
{}

/// How many bytes columns need.
#[tactic(auto, using(crate::proofs::NeededRows::needed_rows))]
pub fn bytes_needed()
    ensures { NeededRows }
{}

/// How many bytes arrays retain.
#[tactic(auto, using(crate::proofs::HeldRows::held_rows))]
pub fn bytes_held()
    ensures { HeldRows }
{}

/// Some slots of arrays, as bytes, and how many bytes these are.
#[tactic(auto, using(crate::proofs::CutRows::bit_rows, crate::proofs::CutRows::list_cut_rows, crate::proofs::CutRows::child_cut_rows, crate::proofs::CutRows::length_cut_rows))]
pub fn slices_as_bytes()
    ensures bits { BitRows }
    ensures lists { ListCutRows }
    ensures children { ChildCutRows }
    ensures lengths { LengthCutRows }
{}

/// Chunks that a writer accepts, and others that it refuses.
pub fn accepted_chunks()
    ensures { AcceptedRows }
{}

/// The lengths of nodes and buffers of arrays.
///
/// Also what chunks offer to a writer, and which of them it accepts.
#[tactic(auto, using(crate::proofs::OfferRows::length_rows, crate::proofs::OfferRows::place_rows, crate::proofs::OfferRows::chunk_rows))]
pub fn offered_chunks()
    ensures lengths { LengthRows }
    ensures dictionaries { FilledRows }
    ensures chunks { ChunkRows }
{}
