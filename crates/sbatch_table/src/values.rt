//! Values that jobs, requests and queries have.

use crate::show::{Show, push_if_some, push_marked, push_variant, show_joined};
use plain_data::array::ArraySpec;
use plain_data::dependency::{DepId, DepItem, DepSpec};
use plain_data::features::FeatureExpr;
use plain_data::items::Items;
use plain_data::limit::Limit;
use plain_data::mem_ask::MemAsk;
use plain_data::nice::Nice;
use small_texts::name::{JobName, Name};
use table_lines::answer::{Unanswered, push};

impl Show for Name {
    fn show(&self, out: &mut Vec<u8>) -> Result<(), Unanswered> {
        out.extend_from_slice(self.as_bytes())?;
        Ok(())
    }
}

impl Show for JobName {
    fn show(&self, out: &mut Vec<u8>) -> Result<(), Unanswered> {
        out.extend_from_slice(self.as_bytes())?;
        Ok(())
    }
}

impl Show for MemAsk {
    fn show(&self, out: &mut Vec<u8>) -> Result<(), Unanswered> {
        match self {
            MemAsk::All => push(out, &"all"),
            MemAsk::PerNode(megabytes) => push_marked(out, b"node:", megabytes),
            MemAsk::PerCpu(megabytes) => push_marked(out, b"cpu:", megabytes),
        }
    }
}

impl Show for Limit {
    fn show(&self, out: &mut Vec<u8>) -> Result<(), Unanswered> {
        match self {
            Limit::Minutes(minutes) => minutes.show(out),
            Limit::Unlimited => push(out, &"unlimited"),
        }
    }
}

impl Show for Nice {
    fn show(&self, out: &mut Vec<u8>) -> Result<(), Unanswered> {
        match self {
            Nice::Lower(number) => number.show(out),
            Nice::Raise(number) => push_marked(out, b"-", number),
        }
    }
}

impl Show for Items<Name> {
    fn show(&self, out: &mut Vec<u8>) -> Result<(), Unanswered> {
        show_joined(out, self.as_slice(), b" and ")
    }
}

impl Show for FeatureExpr {
    fn show(&self, out: &mut Vec<u8>) -> Result<(), Unanswered> {
        show_joined(out, self.alternatives.as_slice(), b" or ")
    }
}

impl Show for ArraySpec {
    fn show(&self, out: &mut Vec<u8>) -> Result<(), Unanswered> {
        for (place, index) in self.indices.iter().enumerate() {
            if place > 0 {
                out.push(b' ')?;
            }
            index.show(out)?;
        }
        push_if_some(out, b" most ", self.most.as_ref())
    }
}

impl Show for DepId {
    fn show(&self, out: &mut Vec<u8>) -> Result<(), Unanswered> {
        self.id.show(out)?;
        push_if_some(out, b"_", self.index.as_ref())
    }
}

impl Show for DepItem {
    fn show(&self, out: &mut Vec<u8>) -> Result<(), Unanswered> {
        push_variant(out, &self.kind)?;
        let ids = self.ids.as_slice();
        if !ids.is_empty() {
            out.push(b' ')?;
        }
        show_joined(out, ids, b" ")
    }
}

impl Show for DepSpec {
    fn show(&self, out: &mut Vec<u8>) -> Result<(), Unanswered> {
        push(out, &quantifier(self))?;
        out.extend_from_slice(b"; ")?;
        show_joined(out, self.items.as_slice(), b"; ")
    }
}

/// How many of the items must be so.
pub fn quantifier(dependency: &DepSpec) -> &'static str {
    if dependency.any { "any" } else { "all" }
}
