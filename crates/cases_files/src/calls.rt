//! The calls of files. The modules begin with their notation.

pub mod files;
mod items;
mod sessions;
mod whole_files;
mod written_files;

use cases_notation::decoder::{Decoder, named};
use cases_notation::text::Text;
use serde_json::Value;

#[derive(Clone, Copy)]
enum Call {
    FileOf,
    FileWithin,
    FileSchemaOf,
    DictionariesOf,
    BatchesOf,
    GivenOf,
    CutFilesOf,
    DamagedFilesOf,
    ItemsOf,
    FileBy,
    FileOn,
    WholeFileBy,
    WholeFileOf,
    FileColumnsOf,
    FileRoundTripOf,
    CreatedBy,
    SessionsBy,
    SessionOn,
    SessionsOn,
}

const CALLS: [(&str, Call); 19] = [
    ("file_of", Call::FileOf),
    ("file_within", Call::FileWithin),
    ("file_schema_of", Call::FileSchemaOf),
    ("dictionaries_of", Call::DictionariesOf),
    ("batches_of", Call::BatchesOf),
    ("given_of", Call::GivenOf),
    ("cut_files_of", Call::CutFilesOf),
    ("damaged_files_of", Call::DamagedFilesOf),
    ("items_of", Call::ItemsOf),
    ("file_by", Call::FileBy),
    ("file_on", Call::FileOn),
    ("whole_file_by", Call::WholeFileBy),
    ("whole_file_of", Call::WholeFileOf),
    ("file_columns_of", Call::FileColumnsOf),
    ("file_round_trip_of", Call::FileRoundTripOf),
    ("created_by", Call::CreatedBy),
    ("sessions_by", Call::SessionsBy),
    ("session_on", Call::SessionOn),
    ("sessions_on", Call::SessionsOn),
];

/// Appends what the call of this name gives, and returns whether there is such a call here.
pub fn put_call(d: &mut Decoder, out: &mut Text, name: &str, parts: &Value) -> bool {
    let Some(call) = named(&CALLS, name) else {
        return false;
    };
    match call {
        Call::FileOf => files::file_of(d, out, parts),
        Call::FileWithin => files::file_within(d, out, parts),
        Call::FileSchemaOf => files::file_schema_of(d, out, parts),
        Call::DictionariesOf => files::dictionaries_of(d, out, parts),
        Call::BatchesOf => files::batches_of(d, out, parts),
        Call::GivenOf => files::given_of(d, out, parts),
        Call::CutFilesOf => files::cut_files_of(d, out, parts),
        Call::DamagedFilesOf => files::damaged_files_of(d, out, parts),
        Call::ItemsOf => items::items_of(d, out, parts),
        Call::FileBy => written_files::file_by(d, out, parts),
        Call::FileOn => written_files::file_on(d, out, parts),
        Call::WholeFileBy => written_files::whole_file_by(d, out, parts),
        Call::WholeFileOf => whole_files::whole_file_of(d, out, parts),
        Call::FileColumnsOf => whole_files::file_columns_of(d, out, parts),
        Call::FileRoundTripOf => whole_files::file_round_trip_of(d, out, parts),
        Call::CreatedBy => sessions::created_by(d, out, parts),
        Call::SessionsBy => sessions::sessions_by(d, out, parts),
        Call::SessionOn => sessions::session_on(d, out, parts),
        Call::SessionsOn => sessions::sessions_on(d, out, parts),
    }
    true
}
