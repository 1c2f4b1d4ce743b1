//! The calls of `ipconvert`.
//!
//! `"conversion_of": RUN`, with a run as in `conversions.rt`, gives
//!
//! - its status, and what it writes to standard error
//! - what `ipcat` prints of its output, or null if that is empty
//! - the pairs of a file that was written
//! - with `"begins": STREAM`, whether the output begins with these bytes

use crate::conversions::{Conversion, converted, converted_stream};
use crate::programs::{Program, run_beside, run_of, words};
use cases_files::calls::files::put_pairs;
use cases_notation::decoder::Decoder;
use cases_notation::text::Text;
use cases_streams::written::stream;
use ipc_devices::MemFile;
use ipc_files::read::file::read_file_metadata;
use serde_json::Value;

/// The result of a run of ipconvert, and what ipcat prints of its output.
pub fn conversion_of(d: &mut Decoder, out: &mut Text, value: &Value) {
    let conversion = converted(d, value);
    out.put("{");
    if let Some(begins) = value.get("begins") {
        let begins = stream_of(d, begins);
        out.put("\"begins\":");
        out.show(&conversion.written.starts_with(&begins));
        out.put(",");
    }
    out.put("\"err\":");
    out.text(&conversion.run.err);
    put_file_pairs(d, out, &conversion);
    out.put(",\"shown\":");
    put_shown(d, out, &conversion);
    out.put(",\"status\":");
    out.show(&conversion.run.status);
    out.put("}");
}

fn stream_of(d: &mut Decoder, value: &Value) -> Vec<u8> {
    match value.get("converted") {
        Some(_) => converted_stream(d, value),
        None => stream(d, value),
    }
}

// The pairs of a file that was written. One that was left as it was may be no file.
fn put_file_pairs(d: &mut Decoder, out: &mut Text, conversion: &Conversion) {
    if !conversion.is_file {
        return;
    }
    let mut file = MemFile::new(conversion.written.as_slice());
    if let Ok(metadata) = read_file_metadata(d.alloc(), &mut file) {
        out.put(",\"pairs\":");
        put_pairs(out, &metadata.custom_metadata);
    }
}

fn put_shown(d: &mut Decoder, out: &mut Text, conversion: &Conversion) {
    let written = conversion.written.as_slice();
    if written.is_empty() {
        return out.put("null");
    }
    let shown = if conversion.is_file {
        let words = words(d, &["file", "path"]);
        let mut copy = d.list();
        d.extend(&mut copy, written);
        run_beside(
            d.alloc(),
            Program::Ipcat,
            &words,
            &[],
            &mut MemFile::new(copy),
        )
    } else {
        let words = words(d, &["stream"]);
        run_of(d.alloc(), Program::Ipcat, &words, written)
    };
    out.text(&shown.out);
}
