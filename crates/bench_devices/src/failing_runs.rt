//! Runs in which one call of a device after the other fails.

use crate::trace::Trace;
use ipc_devices::Fault;
use std::alloc::Global;
use std::fmt;

/// Calls on a device that are made again and again, each time with another failure.
pub trait FailingRun {
    /// What the calls return if this call of their device fails.
    ///
    /// It is counted from 1; with `NEVER` none fails.
    fn run(&self, alloc: Global, failing: u64) -> Result<Trace, Fault>;
}

// More calls than a run makes of its device.
const MOST_CALLS: u64 = 200;

/// The first run, if any, whose trace isn't the expected one.
///
/// The expected texts are those of the runs in which the first call of the device fails, then the
/// second, and so on. Runs in a row that have the same trace share one text. In the run of the last
/// text no call fails.
pub fn first_mismatch<'a, R: FailingRun>(
    alloc: Global,
    run: &R,
    expected: &'a [&'a str],
) -> Result<Option<Mismatch<'a>>, Fault> {
    let mut runs = ExpectedRuns::new(expected);
    for failing in 1..=MOST_CALLS {
        let trace = run.run(alloc, failing)?.unless_out_of_memory()?;
        if !runs.accept(&trace) {
            return Ok(Some(runs.mismatch(failing, trace)));
        }
        if runs.is_over() {
            return Ok(None);
        }
    }
    Ok(Some(runs.mismatch(MOST_CALLS, Trace::new())))
}

// The texts of `first_mismatch`, and how many of them runs have had.
#[derive(Clone, Copy)]
struct ExpectedRuns<'a> {
    expected: &'a [&'a str],
    count: usize,
}

impl<'a> ExpectedRuns<'a> {
    fn new(expected: &'a [&'a str]) -> ExpectedRuns<'a> {
        ExpectedRuns { expected, count: 0 }
    }

    // The text of the runs so far.
    fn last(&self) -> &'a str {
        match self.expected.get(..self.count) {
            Some(texts) => texts.last().copied().unwrap_or(""),
            None => "",
        }
    }

    // The text after it.
    fn next(&self) -> &'a str {
        self.expected
            .get(self.count)
            .copied()
            .unwrap_or("(no further trace)")
    }

    // Whether the trace of the next run is the expected one.
    fn accept(&mut self, trace: &Trace) -> bool {
        if self.count != 0 && trace.is(self.last()) {
            return true;
        }
        let is_next = trace.is(self.next());
        if is_next {
            self.count = self.count.saturating_add(1);
        }
        is_next
    }

    // Whether the last run has the last of the texts.
    fn is_over(&self) -> bool {
        self.count == self.expected.len()
    }

    // What a failing test prints where the run in which this call fails has this trace.
    fn mismatch(&self, failing: u64, trace: Trace) -> Mismatch<'a> {
        Mismatch {
            failing,
            same: self.last(),
            next: self.next(),
            trace,
        }
    }
}

/// A trace that isn't the expected one. It is printed with the two texts that it could have been.
#[derive(Clone, Copy)]
pub struct Mismatch<'a> {
    failing: u64,
    // the text of the run before
    same: &'a str,
    next: &'a str,
    trace: Trace,
}

impl<'a> fmt::Display for Mismatch<'a> {
    fn fmt<W: fmt::Write>(&self, f: &mut fmt::Formatter<W>) -> fmt::Result {
        let Mismatch {
            failing,
            same,
            next,
            trace,
        } = self;
        write!(
            f,
            "call {failing} of the device fails\nexpected:{same}\nor:{next}\ngot:{trace}"
        )
    }
}
