//! What the calls of a test return, as lines of text.
//!
//! Each line names a call and what it returned, as `write ok`, `write io` or `next a`; or, at the
//! end, what became of the device, as `device: 1 failure`. A trace allocates nothing, so that it
//! can record how an allocation fails.

use crate::faulty::TestFile;
use ipc_devices::{Failures, Fault, StateFault, Watched};
use ipc_write::calls::StreamCall;
use std::fmt;

/// The call, or the part of the outcome, that a line is about.
#[derive(Clone, Copy)]
pub enum Call {
    /// `start` of a writer.
    Start,
    /// `write` of a writer, or a chunk of a session.
    Write,
    /// `finish` of a writer, or the end of a session.
    Finish,
    /// `FileWriter::set_custom_metadata`.
    SetCustomMetadata,
    /// `FileWriter::try_new`.
    TryNew,
    /// `append_session`.
    AppendSession,
    /// `run_sessions`.
    RunSessions,
    /// The end of the writes of one session.
    Session,
    /// A run of `ipconvert`.
    Convert,
    /// `write_continuation`.
    WriteContinuation,
    /// `write_message`.
    WriteMessage,
    /// `write_all`.
    WriteAll,
    /// `read_stream_metadata` or `read_file_metadata`.
    Metadata,
    /// `next` of a reader.
    Next,
    /// `read_batch`, after `read_file_dictionaries`.
    ReadBatch,
    /// `read_dictionary`.
    ReadDictionary,
    /// `read_record_batch`.
    ReadRecordBatch,
    /// The dictionaries that a caller of `read_dictionary` has.
    Dictionaries,
    /// A chunk of a whole file.
    File,
    /// A chunk of a whole stream.
    Stream,
    /// The device, after all calls.
    Device,
    /// The bytes of a file before an append, up to the end of its last block.
    OldBytes,
    /// The chunks of a file before an append, by the metadata that were read then.
    OldChunks,
}

impl Call {
    /// The call of a writer.
    pub fn of_writer(call: &StreamCall) -> Call {
        match call {
            StreamCall::Start => Call::Start,
            StreamCall::Write(_) => Call::Write,
            StreamCall::Finish => Call::Finish,
        }
    }

    fn name(self) -> &'static str {
        match self {
            Call::Start => "start",
            Call::Write => "write",
            Call::Finish => "finish",
            Call::SetCustomMetadata => "set_custom_metadata",
            Call::TryNew => "try_new",
            Call::AppendSession => "append_session",
            Call::RunSessions => "run_sessions",
            Call::Session => "session",
            Call::Convert => "ipconvert",
            Call::WriteContinuation => "write_continuation",
            Call::WriteMessage => "write_message",
            Call::WriteAll => "write_all",
            Call::Metadata => "metadata",
            Call::Next => "next",
            Call::ReadBatch => "read_batch",
            Call::ReadDictionary => "read_dictionary",
            Call::ReadRecordBatch => "read_record_batch",
            Call::Dictionaries => "dictionaries:",
            Call::File => "file:",
            Call::Stream => "stream:",
            Call::Device => "device:",
            Call::OldBytes => "old bytes:",
            Call::OldChunks => "old chunks:",
        }
    }
}

/// What a call returned, or what became of the device.
#[derive(Clone, Copy, PartialEq, Eq)]
pub enum Answer {
    /// `Ok`, without a value that the trace records.
    Success,
    /// `Ok`, with a value that isn't the right one.
    WrongValue,
    /// `Fault::Io`.
    Io,
    /// `Fault::Memory`.
    Memory,
    /// `StateFault::AlreadyStarted`.
    AlreadyStarted,
    /// `StateFault::Finished`.
    AlreadyFinished,
    /// `StateFault::Failed`.
    Failed,
    /// `Fault::TooManyDictionaries`.
    TooManyDictionaries,
    /// Any other error.
    Refused,
    /// The first of three chunks.
    A,
    /// The second of three chunks.
    B,
    /// The third of three chunks.
    C,
    /// The chunk of the example.
    Example,
    /// Any other chunk.
    OtherChunk,
    /// A reader of a stream has no whole message yet.
    Waiting,
    /// No further chunk, or no further call.
    End,
    /// None is known yet.
    Unknown,
    /// At least one is known.
    Known,
    /// No call of the device failed.
    NoFailure,
    /// One call of the device failed.
    OneFailure,
    /// More calls of the device failed.
    MoreFailures,
    /// The device has all bytes that it should have.
    Complete,
    /// The device has the first of the bytes that it should have.
    Prefix,
    /// The device has other bytes than it should have.
    OtherBytes,
    /// Nothing was changed.
    Kept,
    /// Something was changed.
    Changed,
}

impl Answer {
    fn name(self) -> &'static str {
        match self {
            Answer::Success => "ok",
            Answer::WrongValue => "wrong value",
            Answer::Io => "io",
            Answer::Memory => "memory",
            Answer::AlreadyStarted => "already started",
            Answer::AlreadyFinished => "already finished",
            Answer::Failed => "failed",
            Answer::TooManyDictionaries => "too many dictionaries",
            Answer::Refused => "refused",
            Answer::A => "a",
            Answer::B => "b",
            Answer::C => "c",
            Answer::Example => "example",
            Answer::OtherChunk => "other chunk",
            Answer::Waiting => "waiting",
            Answer::End => "end",
            Answer::Unknown => "unknown",
            Answer::Known => "known",
            Answer::NoFailure => "no failure",
            Answer::OneFailure => "1 failure",
            Answer::MoreFailures => "more failures",
            Answer::Complete => "complete",
            Answer::Prefix => "prefix",
            Answer::OtherBytes => "other bytes",
            Answer::Kept => "kept",
            Answer::Changed => "changed",
        }
    }

    /// The answer of a call that returned an error.
    pub fn of_fault(fault: &Fault) -> Answer {
        match fault {
            Fault::Io(_) => Answer::Io,
            Fault::Memory => Answer::Memory,
            Fault::State(StateFault::AlreadyStarted) => Answer::AlreadyStarted,
            Fault::State(StateFault::Finished) => Answer::AlreadyFinished,
            Fault::State(StateFault::Failed) => Answer::Failed,
            Fault::TooManyDictionaries => Answer::TooManyDictionaries,
            _ => Answer::Refused,
        }
    }

    /// The answer of a call without a value.
    pub fn of(outcome: &Result<(), Fault>) -> Answer {
        match outcome {
            Ok(()) => Answer::Success,
            Err(fault) => Answer::of_fault(fault),
        }
    }

    /// The answer of a call that returned whether its value is the right one.
    pub fn of_check(outcome: &Result<bool, Fault>) -> Answer {
        match outcome {
            Ok(true) => Answer::Success,
            Ok(false) => Answer::WrongValue,
            Err(fault) => Answer::of_fault(fault),
        }
    }
}

// A line of a trace.
#[derive(Clone, Copy)]
struct Step {
    call: Call,
    answer: Answer,
}

impl Step {
    // Whether the line is this text.
    fn is(self, line: &str) -> bool {
        match line.strip_prefix(self.call.name()) {
            Some(rest) => match rest.strip_prefix(' ') {
                Some(answer) => answer == self.answer.name(),
                None => false,
            },
            None => false,
        }
    }
}

impl fmt::Display for Step {
    fn fmt<W: fmt::Write>(&self, f: &mut fmt::Formatter<W>) -> fmt::Result {
        let call = self.call.name();
        let answer = self.answer.name();
        write!(f, "{call} {answer}")
    }
}

const CAPACITY: usize = 24;

/// The lines of a run, at most 24 of them. Further lines are counted and not kept.
#[derive(Clone, Copy)]
pub struct Trace {
    steps: [Step; CAPACITY],
    count: usize,
}

impl Trace {
    /// A trace without lines.
    pub fn new() -> Trace {
        let unused = Step {
            call: Call::Start,
            answer: Answer::Success,
        };
        Trace {
            steps: [unused; CAPACITY],
            count: 0,
        }
    }

    /// Adds a line.
    pub fn add(&mut self, call: Call, answer: Answer) {
        let count = self.count;
        if let Some(step) = self.steps.get_mut(count) {
            *step = Step { call, answer };
        }
        self.count = count.saturating_add(1);
    }

    /// Adds the line of a call without a value.
    pub fn add_result(&mut self, call: Call, outcome: &Result<(), Fault>) {
        self.add(call, Answer::of(outcome));
    }

    /// Adds a line with the number of failed calls of the device.
    pub fn add_failures(&mut self, failures: u64) {
        let answer = match failures {
            0 => Answer::NoFailure,
            1 => Answer::OneFailure,
            _ => Answer::MoreFailures,
        };
        self.add(Call::Device, answer);
    }

    /// Adds two lines on a device.
    ///
    /// They say how many of its calls failed, and whether it has all of these bytes, a prefix of
    /// them, or others.
    pub fn add_device<D: TestFile>(&mut self, device: Watched<D>, expected: &[u8]) {
        self.add_failures(device.failures());
        let bytes = device.into_inner().into_bytes();
        let answer = if bytes.as_slice() == expected {
            Answer::Complete
        } else if expected.starts_with(&bytes) {
            Answer::Prefix
        } else {
            Answer::OtherBytes
        };
        self.add(Call::Device, answer);
    }

    /// Adds the lines of another trace.
    pub fn append(&mut self, other: &Trace) {
        for step in other.steps.iter().take(other.count) {
            self.add(step.call, step.answer);
        }
    }

    /// Whether the lines are those of a text. Spaces before and after a line of the text don't
    /// count, nor do empty lines.
    pub fn is(&self, text: &str) -> bool {
        let mut count = 0usize;
        for line in text.lines() {
            let line = line.trim();
            if !line.is_empty() {
                if !self.has(count, line) {
                    return false;
                }
                count = count.saturating_add(1);
            }
        }
        count == self.count
    }

    // Whether the line at this index is this text.
    fn has(&self, index: usize, line: &str) -> bool {
        match self.steps.get(index) {
            Some(step) => step.is(line),
            None => false,
        }
    }

    /// Whether the lines are those of one of these texts.
    pub fn is_one_of(&self, texts: &[&str]) -> bool {
        for text in texts {
            if self.is(text) {
                return true;
            }
        }
        false
    }

    /// The trace, or `Memory` where a call returned that error.
    pub fn unless_out_of_memory(self) -> Result<Trace, Fault> {
        for step in &self.steps {
            if step.answer == Answer::Memory {
                return Err(Fault::Memory);
            }
        }
        Ok(self)
    }
}

impl fmt::Display for Trace {
    fn fmt<W: fmt::Write>(&self, f: &mut fmt::Formatter<W>) -> fmt::Result {
        for step in self.steps.iter().take(self.count) {
            write!(f, "\n    {step}")?;
        }
        Ok(())
    }
}

/// The texts of which a trace has to be one. They are printed one after the other.
#[derive(Clone, Copy)]
pub struct Alternatives<'a>(pub &'a [&'a str]);

impl<'a> fmt::Display for Alternatives<'a> {
    fn fmt<W: fmt::Write>(&self, f: &mut fmt::Formatter<W>) -> fmt::Result {
        for text in self.0 {
            write!(f, "{text}")?;
        }
        Ok(())
    }
}
