//! Jobs that are named.

use crate::show::{Show, push_if_some, push_marked, show_joined};
use plain_data::items::Items;
use request_data::target::{Target, Targets};
use table_lines::answer::Unanswered;

impl Show for Target {
    fn show(&self, out: &mut Vec<u8>) -> Result<(), Unanswered> {
        self.id.show(out)?;
        push_if_some(out, b"_", self.index.as_ref())
    }
}

impl Show for Items<Target> {
    fn show(&self, out: &mut Vec<u8>) -> Result<(), Unanswered> {
        show_joined(out, self.as_slice(), b" ")
    }
}

impl Show for Targets {
    fn show(&self, out: &mut Vec<u8>) -> Result<(), Unanswered> {
        match self {
            Targets::List(targets) => targets.show(out),
            Targets::User(user) => push_marked(out, b"user=", user),
        }
    }
}
