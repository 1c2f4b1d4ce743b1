//! The calls of encoded batches, dictionary trackers, devices and streams.
//!
//! Those of streams are of their frames and messages, of readers and writers, and of the plain
//! program. With `"big_endian": true` the numbers in bodies have their highest byte first.

mod appended;
mod devices;
mod encoded;
mod frames;
mod limits;
mod messages;
pub mod plain_streams;
pub mod round_trips;
pub mod streams;

use cases_notation::decoder::{Decoder, is_set, named};
use cases_notation::text::Text;
use ipc_devices::fault::Fault;
use ipc_encode::common::WriteOptions;
use serde_json::Value;

/// Appends what the call of this name gives, and returns whether there is such a call here.
pub fn put_call(d: &mut Decoder, out: &mut Text, name: &str, parts: &Value) -> bool {
    put_encode_call(d, out, name, parts) || put_stream_call(d, out, name, parts)
}

/// The options of a writer.
pub fn options(value: &Value) -> WriteOptions {
    WriteOptions {
        big_endian: is_set(value, "big_endian"),
    }
}

/// Appends the result of a call that returns no value: `"ok"` or the error.
pub fn put_answer(out: &mut Text, answer: Result<(), Fault>) {
    match answer {
        Ok(()) => out.put("\"ok\""),
        Err(fault) => out.shown(&fault),
    }
}

// ---- batches, trackers and devices

#[derive(Clone, Copy)]
enum EncodeCall {
    Appended,
    RecordOf,
    EncodedBy,
    TrackedBy,
    DeviceBy,
}

const ENCODE_CALLS: [(&str, EncodeCall); 5] = [
    ("appended", EncodeCall::Appended),
    ("record_of", EncodeCall::RecordOf),
    ("encoded_by", EncodeCall::EncodedBy),
    ("tracked_by", EncodeCall::TrackedBy),
    ("device_by", EncodeCall::DeviceBy),
];

fn put_encode_call(d: &mut Decoder, out: &mut Text, name: &str, parts: &Value) -> bool {
    let Some(call) = named(&ENCODE_CALLS, name) else {
        return false;
    };
    match call {
        EncodeCall::Appended => appended::appended(d, out, parts),
        EncodeCall::RecordOf => appended::record_of(d, out, parts),
        EncodeCall::EncodedBy => encoded::encoded_by(d, out, parts),
        EncodeCall::TrackedBy => encoded::tracked_by(d, out, parts),
        EncodeCall::DeviceBy => devices::device_by(d, out, parts),
    }
    true
}

// ---- streams

#[derive(Clone, Copy)]
enum StreamCall {
    Framed,
    ContinuationOf,
    FramesOf,
    RecordsOf,
    ReadOf,
    WrittenBy,
    BytesBy,
    AreSameBytes,
    HeadOf,
    CostOf,
    FooterCostOf,
    HeadWithin,
    AnswersOf,
    RoundTripOf,
    WholeOf,
    StreamColumnsOf,
    StreamByBoth,
    CutStreamsOf,
    DamagedStreamsOf,
}

const STREAM_CALLS: [(&str, StreamCall); 19] = [
    ("framed", StreamCall::Framed),
    ("continuation_of", StreamCall::ContinuationOf),
    ("frames_of", StreamCall::FramesOf),
    ("records_of", StreamCall::RecordsOf),
    ("read_of", StreamCall::ReadOf),
    ("written_by", StreamCall::WrittenBy),
    ("bytes_by", StreamCall::BytesBy),
    ("are_same_bytes", StreamCall::AreSameBytes),
    ("head_of", StreamCall::HeadOf),
    ("cost_of", StreamCall::CostOf),
    ("footer_cost_of", StreamCall::FooterCostOf),
    ("head_within", StreamCall::HeadWithin),
    ("answers_of", StreamCall::AnswersOf),
    ("round_trip_of", StreamCall::RoundTripOf),
    ("whole_of", StreamCall::WholeOf),
    ("stream_columns_of", StreamCall::StreamColumnsOf),
    ("stream_by_both", StreamCall::StreamByBoth),
    ("cut_streams_of", StreamCall::CutStreamsOf),
    ("damaged_streams_of", StreamCall::DamagedStreamsOf),
];

fn put_stream_call(d: &mut Decoder, out: &mut Text, name: &str, parts: &Value) -> bool {
    let Some(call) = named(&STREAM_CALLS, name) else {
        return false;
    };
    match call {
        StreamCall::Framed => frames::framed(d, out, parts),
        StreamCall::ContinuationOf => frames::continuation_of(d, out, parts),
        StreamCall::FramesOf => messages::frames_of(d, out, parts),
        StreamCall::RecordsOf => messages::records_of(d, out, parts),
        StreamCall::ReadOf => streams::read_of(d, out, parts),
        StreamCall::WrittenBy => streams::written_by(d, out, parts),
        StreamCall::BytesBy => streams::bytes_by(d, out, parts),
        StreamCall::AreSameBytes => streams::are_same_bytes(d, out, parts),
        StreamCall::HeadOf => streams::head_of(d, out, parts),
        StreamCall::CostOf => limits::cost_of(d, out, parts),
        StreamCall::FooterCostOf => limits::footer_cost_of(d, out, parts),
        StreamCall::HeadWithin => limits::head_within(d, out, parts),
        StreamCall::AnswersOf => streams::answers_of(d, out, parts),
        StreamCall::RoundTripOf => round_trips::round_trip_of(d, out, parts),
        StreamCall::WholeOf => round_trips::whole_of(d, out, parts),
        StreamCall::StreamColumnsOf => round_trips::stream_columns_of(d, out, parts),
        StreamCall::StreamByBoth => plain_streams::stream_by_both(d, out, parts),
        StreamCall::CutStreamsOf => plain_streams::cut_streams_of(d, out, parts),
        StreamCall::DamagedStreamsOf => plain_streams::damaged_streams_of(d, out, parts),
    }
    true
}
