//! How many cases agree.

use crate::case::{Answer, run_case};
use cases_notation::failure::Failure;
use serde_json::Value;
use std::alloc::Global;
use std::io;
use std::process::ExitCode;

/// How many cases were run, and how many of them agreed.
#[derive(Drop)]
pub struct Tally {
    cases: u64,
    agreeing: u64,
}

impl Tally {
    pub fn new() -> Self {
        Tally {
            cases: 0,
            agreeing: 0,
        }
    }

    /// Runs the cases of a file, and prints the result of each. Empty lines separate cases; lines
    /// that begin with `#` are comments.
    pub fn run_cases(
        &mut self,
        rt: &impl Print,
        alloc: Global,
        file: &str,
        text: &str,
    ) -> io::Result<()> {
        let mut common = Value::Null;
        let mut case = String::new(alloc);
        for line in text.lines() {
            if line.is_empty() {
                self.run_text(rt, alloc, file, case.as_str(), &mut common)?;
                case.clear();
            } else if !line.starts_with('#') {
                case.push_str(line)?;
            }
        }
        self.run_text(rt, alloc, file, case.as_str(), &mut common)
    }

    // Runs a case, or takes the common parts of those that follow.
    fn run_text(
        &mut self,
        rt: &impl Print,
        alloc: Global,
        file: &str,
        text: &str,
        common: &mut Value,
    ) -> io::Result<()> {
        if text.is_empty() {
            return Ok(());
        }
        match Value::from_str(alloc, text) {
            Err(_) => self.refuse(rt, file, &Failure::Notation("JSON"), text),
            Ok(value) if value.get("common").is_some() => {
                *common = value;
                Ok(())
            }
            Ok(mut value) => match run_case(alloc, &mut value, common) {
                Ok(answer) => self.judge(rt, file, &answer),
                Err(failure) => self.refuse(rt, file, &failure, text),
            },
        }
    }

    // A case that isn't in the notation, so that it agrees with nothing.
    fn refuse(
        &mut self,
        rt: &impl Print,
        file: &str,
        failure: &Failure,
        case: &str,
    ) -> io::Result<()> {
        self.cases = self.cases.saturating_add(1);
        println!(rt; "NOT A CASE: {file}: {failure}: {case}")
    }

    fn judge(&mut self, rt: &impl Print, file: &str, answer: &Answer) -> io::Result<()> {
        let Answer { name, wanted, got } = answer;
        self.cases = self.cases.saturating_add(1);
        if answer.agrees() {
            self.agreeing = self.agreeing.saturating_add(1);
            return println!(rt; "agrees: {name}");
        }
        println!(rt; "DIFFERS: {file}: {name}\n  wanted {wanted}\n  got    {got}")
    }

    /// Prints how many cases agree, and returns the exit status.
    pub fn report(&self, rt: &impl Print) -> io::Result<ExitCode> {
        let Tally { cases, agreeing } = self;
        if cases == agreeing {
            println!(rt; "{cases} cases agree")?;
            return Ok(ExitCode::from(0));
        }
        println!(rt; "{agreeing} of {cases} cases agree")?;
        Ok(ExitCode::from(1))
    }
}
