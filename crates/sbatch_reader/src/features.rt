//! The features that a job wants of its nodes.

ghost use Rattle.std.specs.Prelude.{◌≡◌, IfOk, IsErrOf, Some, None};
ghost use Rattle.sbatch_reader.specs.Features.{together_in, features_in};

use plain_data::features::FeatureExpr;
use plain_data::items::Items;
use small_texts::name::Name;
use std::alloc::Global;
use text_values::lists::{Grammar, read_parts};
use text_values::names::NameText;
use text_values::refusal::ValueRefusal;

// The grammar of features that are wanted together.
#[derive(Clone, Copy)]
struct TogetherText;

impl Grammar for TogetherText {
    type Value = Items<Name>;

    ghost meaning = { together_in };

    fn read(alloc: Global, text: &[u8]) -> Result<Items<Name>, ValueRefusal> {
        read_parts::<NameText>(alloc, text, b'&')
    }
}

/// Names joined by `&` and `|`, of which `&` binds tighter (own). `--constraint` in sbatch(1).
#[tactic(auto, unfolding(crate::specs::Features::features_in))]
pub fn read_features(alloc: Global, text: &[u8]) -> Result<FeatureExpr, ValueRefusal>
    ensures value { IfOk result (λ features. features_in text.now ≡ Some features) }
    ensures refused { IsErrOf result ValueRefusal.BadValue → features_in text.now ≡ None }
{
    let alternatives = read_parts::<TogetherText>(alloc, text, b'|')?;
    Ok(FeatureExpr { alternatives })
}
