//! Results in order, where equal ones in a row are counted.
//!
//! `[["NoColumns", 72], ["Columns", 56]]`: each result, and how often it follows itself.

use crate::decoder::Decoder;
use crate::text::Text;
use std::alloc::Global;

/// Answers in their order.
#[derive(Drop)]
pub struct Runs {
    last: String,
    count: u64,
}

impl Runs {
    /// No answers yet.
    pub fn new(alloc: Global) -> Runs {
        Runs {
            last: String::new(alloc),
            count: 0,
        }
    }

    /// Adds an answer, and appends those before it where it is another one.
    pub fn add(&mut self, d: &mut Decoder, out: &mut Text, answer: Text) {
        let answer = answer.finish();
        if let Some(answer) = d.take(answer) {
            self.count_one(out, answer);
        }
    }

    fn count_one(&mut self, out: &mut Text, answer: String) {
        if answer != self.last {
            self.end_run(out);
            self.last = answer;
        }
        self.count = self.count.saturating_add(1);
    }

    /// Appends the last answers.
    pub fn end_run(&mut self, out: &mut Text) {
        if self.count != 0 {
            out.comma();
            out.put("[");
            out.put(self.last.as_str());
            out.put(",");
            out.show(&self.count);
            out.put("]");
        }
        self.count = 0;
    }
}
