//! Text that is built piece by piece.

use crate::decoder::Decoder;
use crate::failure::Failure;
use ipc_devices::fault::Fault;
use serde_json::Value as Json;
use std::alloc::Global;
use std::fmt::{Debug, Display, Write};

/// Text that is built piece by piece. Only `finish` reports that a piece is missing, so that a
/// function that prints has one way through.
#[derive(Drop)]
pub struct Text {
    alloc: Global,
    held: String,
    // why a piece is missing
    missing: Option<Missing>,
}

#[derive(Clone, Copy)]
enum Missing {
    Memory,
    // what a case has no notation for
    Part(&'static str),
}

impl Text {
    /// An empty text.
    pub fn new(alloc: Global) -> Text {
        Text {
            alloc,
            held: String::new(alloc),
            missing: None,
        }
    }

    /// The text, where no piece is missing.
    pub fn finish(self) -> Result<String, Failure> {
        match self.missing {
            None => Ok(self.held),
            Some(Missing::Memory) => Err(Failure::Refused(Fault::Memory)),
            Some(Missing::Part(part)) => Err(Failure::Notation(part)),
        }
    }

    /// Appends a piece as it is.
    pub fn put(&mut self, piece: &str) {
        if self.held.push_str(piece).is_err() {
            self.missing = Some(Missing::Memory);
        }
    }

    /// Appends a number, a truth, or whatever displays itself.
    pub fn show<T: Display>(&mut self, value: &T) {
        if write!(self.held, "{value}").is_err() {
            self.missing = Some(Missing::Memory);
        }
    }

    /// Appends the `Debug` text of a value.
    pub fn debug<T: Debug>(&mut self, value: &T) {
        if write!(self.held, "{value:?}").is_err() {
            self.missing = Some(Missing::Memory);
        }
    }

    /// Appends a text that was built apart.
    pub fn finished(&mut self, d: &mut Decoder, piece: Text) {
        let piece = piece.finish();
        if let Some(piece) = d.take(piece) {
            self.put(piece.as_str());
        }
    }

    /// Appends a JSON value.
    pub fn json(&mut self, value: &Json) {
        match value.to_string(self.alloc) {
            Ok(text) => self.put(text.as_str()),
            Err(_) => self.missing = Some(Missing::Memory),
        }
    }

    /// Appends a name in quotes: its `Debug` text.
    pub fn name<T: Debug>(&mut self, value: &T) {
        self.put("\"");
        self.debug(value);
        self.put("\"");
    }

    /// Appends a comma, but for the first item of a list.
    pub fn comma(&mut self) {
        if !self.held.as_str().ends_with('[') {
            self.put(",");
        }
    }

    /// Appends two numbers as a list.
    pub fn pair<T: Display, U: Display>(&mut self, first: &T, second: &U) {
        self.put("[");
        self.show(first);
        self.put(",");
        self.show(second);
        self.put("]");
    }

    /// Appends bytes as hex digits in quotes.
    pub fn hex(&mut self, bytes: &[u8]) {
        match hex::encode(self.alloc, bytes) {
            Ok(digits) => {
                self.put("\"");
                self.put(digits.as_str());
                self.put("\"");
            }
            Err(_) => self.missing = Some(Missing::Memory),
        }
    }

    /// Appends bytes of UTF-8 in quotes, as JSON has it.
    pub fn text(&mut self, text: &[u8]) {
        match str::from_utf8(text) {
            Ok(text) => self.quoted(text),
            Err(_) => self.miss("a text that isn't UTF-8"),
        }
    }

    /// Appends a text in quotes, as JSON has it.
    pub fn quoted(&mut self, text: &str) {
        match Json::try_from_str(self.alloc, text) {
            Ok(text) => self.json(&text),
            Err(_) => self.missing = Some(Missing::Memory),
        }
    }

    /// Appends the `Debug` text of a value in quotes.
    pub fn shown<T: Debug>(&mut self, value: &T) {
        match format!(in self.alloc; "{value:?}") {
            Ok(shown) => self.quoted(shown.as_str()),
            Err(_) => self.missing = Some(Missing::Memory),
        }
    }

    /// Remembers that a part can't be shown.
    pub fn miss(&mut self, part: &'static str) {
        self.missing = Some(Missing::Part(part));
    }

    /// Appends bytes by words of eight; words of zeros are counted:
    /// `["ffffffff01000000",{"zeros":56}]`.
    pub fn words(&mut self, bytes: &[u8]) {
        let mut zeros = 0usize;
        self.put("[");
        for word in bytes.chunks(8) {
            if word == [0; 8].as_slice() {
                zeros = zeros.saturating_add(8);
            } else {
                self.zeros(zeros);
                zeros = 0;
                self.comma();
                self.hex(word);
            }
        }
        self.zeros(zeros);
        self.put("]");
    }

    fn zeros(&mut self, zeros: usize) {
        if zeros != 0 {
            self.comma();
            self.put("{\"zeros\":");
            self.show(&zeros);
            self.put("}");
        }
    }
}
