//! A case: its call, and what must come out of it.
//!
//! `{"case": NAME, CALL: PARTS, "gives": VALUE}`. A call that returns an error gives its `Debug`
//! text; a wanted text that ends in `..` leaves open what follows. Wanted bytes may be in parts, as
//! in `bytes.rt` of `cases_notation`. `{"fault": NAME, "text": TEXT}` wants the `Display` text too.
//! `{"common": {CALL: PARTS}}` comes before cases that have these parts where they don't say
//! others.

use crate::calls::put_call;
use crate::conversions::put_converted;
use cases_arrays::schemas::put_wanted_schema;
use cases_notation::bytes::bytes;
use cases_notation::decoder::Decoder;
use cases_notation::failure::Failure;
use cases_notation::text::Text;
use ipc_devices::fault::Fault;
use serde_json::Value;
use std::alloc::Global;

/// What a case wants and what it got, as text.
#[derive(Drop)]
pub struct Answer {
    pub name: String,
    pub wanted: String,
    pub got: String,
}

impl Answer {
    /// Whether it got what it wants.
    pub fn agrees(&self) -> bool {
        match self.wanted.as_str().strip_suffix("..\"") {
            Some(beginning) => self.got.as_str().starts_with(beginning),
            None => self.got == self.wanted,
        }
    }
}

/// Runs a case, to which the common parts of its call are added.
pub fn run_case(alloc: Global, case: &mut Value, common: &Value) -> Result<Answer, Failure> {
    let mut d = Decoder::new(alloc);
    add_common(&mut d, case, common);
    join_wanted_bytes(&mut d, case);
    put_converted(&mut d, case);
    let gives = d.member(case, "gives");
    let name = d.string(case.get("case"), "case");
    let mut wanted = Text::new(alloc);
    put_wanted(&mut d, &mut wanted, gives);
    d.finish()?;
    let got = match called(alloc, case) {
        Err(Failure::Refused(fault)) => shown_fault(alloc, &fault, gives)?,
        called => in_order(alloc, called?)?,
    };
    Ok(Answer {
        name,
        wanted: wanted.finish()?,
        got,
    })
}

// What comes out of the case's call.
fn called(alloc: Global, case: &Value) -> Result<String, Failure> {
    let mut d = Decoder::new(alloc);
    let mut out = Text::new(alloc);
    put_called(&mut d, &mut out, case);
    d.finish()?;
    out.finish()
}

fn put_called(d: &mut Decoder, out: &mut Text, case: &Value) {
    let Value::Object(members) = case else {
        return d.miss("case");
    };
    for (name, parts) in members {
        if name.as_str() != "case" && name.as_str() != "gives" {
            return put_call(d, out, name.as_str(), parts);
        }
    }
    d.miss("a call")
}

// Joins the bytes that a case wants, where they are in parts, into hex digits.
fn join_wanted_bytes(d: &mut Decoder, case: &mut Value) {
    let Some(gives) = case.get_mut("gives") else {
        return;
    };
    let Some(wanted) = gives.get_mut("bytes") else {
        return;
    };
    if let Value::Array(_) = wanted {
        let joined = bytes(d, wanted);
        let digits = hex::encode(d.alloc(), joined.as_slice());
        if let Some(digits) = d.take(digits) {
            *wanted = Value::String(digits);
        }
    }
}

// What a call gave, with its parts in the order of their names, as the JSON text of a value has
// them. A schema isn't JSON.
fn in_order(alloc: Global, got: String) -> Result<String, Failure> {
    match Value::from_str(alloc, got.as_str()) {
        Ok(value) => Ok(value.to_string(alloc)?),
        Err(_) => Ok(got),
    }
}

// An error by its `Debug` text, with its `Display` text where that is wanted too.
fn shown_fault(alloc: Global, fault: &Fault, wanted: &Value) -> Result<String, Failure> {
    let mut out = Text::new(alloc);
    if wanted.get("fault").is_none() {
        out.shown(fault);
        return out.finish();
    }
    out.put("{\"fault\":");
    out.shown(fault);
    out.put(",\"text\":");
    out.quoted(format!(in alloc; "{fault}")?.as_str());
    out.put("}");
    out.finish()
}

// What a case wants, as text: what the plain program and a reader give, where it wants both.
fn put_wanted(d: &mut Decoder, out: &mut Text, value: &Value) {
    match (value.get("plain"), value.get("reader")) {
        (Some(plain), Some(reader)) => {
            out.put("agree ");
            out.show(&d.truth(value.get("agree"), "agree"));
            out.put(", plain ");
            put_one(d, out, plain);
            out.put(", reader ");
            put_one(d, out, reader);
        }
        _ => put_one(d, out, value),
    }
}

// A schema by its `Debug` text, anything else as it is.
fn put_one(d: &mut Decoder, out: &mut Text, value: &Value) {
    if value.get("fields").is_some() {
        put_wanted_schema(d, out, value);
    } else {
        out.json(value);
    }
}

// Adds the common parts of its call that a case doesn't have.
fn add_common(d: &mut Decoder, case: &mut Value, common: &Value) {
    let Some(Value::Object(calls)) = common.get("common") else {
        return;
    };
    for (call, common_parts) in calls {
        if let Some(parts) = case.get_mut(call.as_str()) {
            let added = add_parts(parts, common_parts);
            let _ = d.take(added);
        }
    }
}

fn add_parts(parts: &mut Value, common: &Value) -> Result<(), Failure> {
    let (Value::Object(parts), Value::Object(common)) = (parts, common) else {
        return Ok(());
    };
    for (name, part) in common {
        if !parts.contains_key(name.as_str()) {
            parts.insert(name.clone()?, part.clone()?)?;
        }
    }
    Ok(())
}
