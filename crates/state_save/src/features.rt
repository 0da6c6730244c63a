//! The features that a job wants.

ghost use Rattle.std.specs.Prelude.{◌≡◌, ◌∷◌, ◌++◌, map, flat_map, OnOk};
ghost use Rattle.std.specs.Str.{byte};
ghost use Rattle.sbatch_reader.specs.Features.{features_in};
ghost use Rattle.state_save.specs.Texts.{features_text, together_text};
ghost use Rattle.state_save.specs.Fitting.{FeaturesFit};

use crate::lists::push_list;
use crate::word::Word;
use plain_data::features::FeatureExpr;
use plain_data::items::Items;
use sbatch_reader::features::read_features;
use small_texts::memory_error::Memory;
use small_texts::name::Name;
use small_texts::pieces::push_text;
use std::alloc::Global;
use text_values::refusal::ValueRefusal;

// Writes more lists of features that are wanted together.
fn push_others(out: &mut Vec<u8>, others: &[Items<Name>]) -> Result<(), Memory>
    ensures { OnOk result (out.new.items ≡ out.old.items ++ flat_map (λ names. byte "|" ∷ together_text names) others.now) }
{
    for names in others {
        push_text(out, b"|")?;
        push_list(out, names.as_slice(), b'&')?;
    }
    Ok(())
}

impl Word for FeatureExpr {
    ghost text = { features_text };

    ghost meaning = { features_in };

    ghost fits = { FeaturesFit };

    fn push_word(&self, out: &mut Vec<u8>) -> Result<(), Memory> {
        let Some((first, others)) = self.alternatives.as_slice().split_first() else {
            return Ok(());
        };
        push_list(out, first.as_slice(), b'&')?;
        push_others(out, others)
    }

    fn read_word(alloc: Global, word: &[u8]) -> Result<FeatureExpr, ValueRefusal> {
        read_features(alloc, word)
    }

    #[tactic(auto, using(crate::proofs::NeedWords::features_sound))]
    fn tell_fits() {}
}
