//! Names.

ghost use Rattle.std.specs.Prelude.{◌≡◌};
ghost use Rattle.text_values.specs.Names.{name_in};
ghost use Rattle.state_save.specs.Texts.{name_text};
ghost use Rattle.state_save.specs.Meanings.{job_name_in};
ghost use Rattle.state_save.specs.Fitting.{IsName, IsJobName};

use crate::word::Word;
use small_texts::memory_error::Memory;
use small_texts::name::{JobName, Name};
use small_texts::pieces::push_text;
use std::alloc::Global;
use text_values::names::read_name;
use text_values::refusal::ValueRefusal;

impl Word for Name {
    ghost text = { name_text };

    ghost meaning = { name_in };

    ghost fits = { IsName };

    fn push_word(&self, out: &mut Vec<u8>) -> Result<(), Memory> {
        push_text(out, self.as_bytes())
    }

    fn read_word(alloc: Global, word: &[u8]) -> Result<Name, ValueRefusal> {
        read_name(alloc, word)
    }

    #[tactic(auto, using(crate::proofs::Values::name_sound))]
    fn tell_fits() {}
}

impl Word for JobName {
    ghost text = { name_text };

    ghost meaning = { job_name_in };

    ghost fits = { IsJobName };

    fn push_word(&self, out: &mut Vec<u8>) -> Result<(), Memory> {
        push_text(out, self.as_bytes())
    }

    fn read_word(alloc: Global, word: &[u8]) -> Result<JobName, ValueRefusal> {
        let name = JobName::read(alloc, word)?;
        Ok(name)
    }

    #[tactic(auto, using(crate::proofs::Values::job_name_sound))]
    fn tell_fits() {}
}
