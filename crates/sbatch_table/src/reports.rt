//! What a node's daemon reports.

use crate::show::{Show, push_listed, push_marked};
use request_data::report::{Done, Report, Start};
use table_lines::answer::Unanswered;

impl Show for Start {
    fn show(&self, out: &mut Vec<u8>) -> Result<(), Unanswered> {
        self.id.show(out)?;
        push_marked(out, b".", &self.number)
    }
}

impl Show for Done {
    fn show(&self, out: &mut Vec<u8>) -> Result<(), Unanswered> {
        self.start.show(out)?;
        push_marked(out, b".", &self.exit)
    }
}

/// Puts a report's command behind an answer, with what it says.
pub(crate) fn push_report(out: &mut Vec<u8>, report: &Report) -> Result<(), Unanswered> {
    push_marked(out, b"report ", &report.node)?;
    push_marked(out, b" ", &report.boot)?;
    push_marked(out, b" ", &report.number)?;
    push_listed(out, b" run=", report.running.as_slice())?;
    push_listed(out, b" done=", report.done.as_slice())
}
