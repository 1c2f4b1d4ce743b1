//! The calls of cases, by their names: those of the libraries, and the programs.

mod conversions;
mod tools;

use cases_notation::decoder::{Decoder, named};
use cases_notation::text::Text;
use serde_json::Value;

#[derive(Clone, Copy)]
enum Call {
    Ipcat,
    Ipconvert,
    IpcatCut,
    IpcatDamaged,
    ConversionOf,
}

const CALLS: [(&str, Call); 5] = [
    ("ipcat", Call::Ipcat),
    ("ipconvert", Call::Ipconvert),
    ("ipcat_cut", Call::IpcatCut),
    ("ipcat_damaged", Call::IpcatDamaged),
    ("conversion_of", Call::ConversionOf),
];

/// Appends what the call of this name gives.
pub fn put_call(d: &mut Decoder, out: &mut Text, name: &str, parts: &Value) {
    match named(&CALLS, name) {
        Some(call) => put_program(d, out, call, parts),
        None => put_library_call(d, out, name, parts),
    }
}

fn put_program(d: &mut Decoder, out: &mut Text, call: Call, parts: &Value) {
    match call {
        Call::Ipcat => tools::ipcat(d, out, parts),
        Call::Ipconvert => tools::ipconvert(d, out, parts),
        Call::IpcatCut => tools::ipcat_cut(d, out, parts),
        Call::IpcatDamaged => tools::ipcat_damaged(d, out, parts),
        Call::ConversionOf => conversions::conversion_of(d, out, parts),
    }
}

fn put_library_call(d: &mut Decoder, out: &mut Text, name: &str, parts: &Value) {
    let is_known = cases_notation::calls::put_call(d, out, name, parts)
        || cases_arrays::calls::put_call(d, out, name, parts)
        || cases_records::calls::put_call(d, out, name, parts)
        || cases_streams::calls::put_call(d, out, name, parts)
        || cases_files::calls::put_call(d, out, name, parts);
    if !is_known {
        d.miss("a call");
    }
}
