//! What a command says, as far as it is read.

use crate::entries::{Entry, JobWords};
use crate::refusal::{JobRefusal, Place, WordKind};
use crate::said::Said;
use std::alloc::Global;

/// What is said so far.
#[derive(Drop)]
pub(crate) struct Draft {
    /// What is good of it.
    pub(crate) words: JobWords,
    /// The first fault.
    pub(crate) fault: Option<JobRefusal>,
    /// Where the last number of nodes stands, as long as no fault stands before it.
    pub(crate) nodes_at: Option<Place>,
}

impl Draft {
    ghost use Rattle.std.specs.Prelude.{◌≡◌};
    ghost use Rattle.sbatch_reader.specs.Drafts.{nothing_said, nodes_after, after, verdict};

    #[tactic(auto, unfolding(crate::specs::Drafts::nothing_said))]
    pub(crate) fn new(alloc: Global) -> Draft
        ensures { result ≡ nothing_said }
    {
        Draft {
            words: JobWords::new(alloc),
            fault: None,
            nodes_at: None,
        }
    }

    fn nodes_after(&self, said: &Said) -> Option<Place>
        ensures { result ≡ nodes_after self.now said.now }
    {
        match said.what {
            Ok(Entry::Nodes(_)) => match self.fault {
                None => Some(said.place),
                Some(_) => None,
            },
            _ => self.nodes_at,
        }
    }

    /// Takes up what is said next.
    #[tactic(auto, unfolding(crate::specs::Drafts::after))]
    pub(crate) fn take(&mut self, said: Said)
        ensures { self.new ≡ after self.old said }
    {
        let nodes_at = self.nodes_after(&said);
        match said.what {
            Ok(entry) => {
                self.words.put(entry);
                self.nodes_at = nodes_at;
            }
            Err(kind) => self.fault = self.fault.or(Some(said.place.refusal(kind))),
        }
    }

    /// The first fault, where the most nodes may be below the least.
    pub(crate) fn verdict(&self, crossed: bool) -> Option<JobRefusal>
        ensures { result ≡ verdict crossed self.now }
    {
        match self.nodes_at {
            Some(place) if crossed => Some(place.refusal(WordKind::BadValue)),
            _ => self.fault,
        }
    }
}
