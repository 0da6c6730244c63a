//! What features a job wants of its nodes.

ghost use Rattle.std.specs.Prelude.{◌≡◌, IfOk};

use crate::Plain;
use crate::items::Items;
use small_texts::memory_error::Memory;
use small_texts::name::Name;

/// The features that a node must have. `--constraint` in sbatch(1).
#[derive(PartialEq, Debug, Drop)]
pub struct FeatureExpr {
    /// One of these lists must be had whole.
    pub alternatives: Items<Items<Name>>,
}

impl FeatureExpr {
    /// An equal expression.
    pub fn copy(&self) -> Result<FeatureExpr, Memory>
        ensures { IfOk result (λ features. features ≡ self.now) }
    {
        Ok(FeatureExpr {
            alternatives: self.alternatives.copy()?,
        })
    }
}

impl Plain for FeatureExpr {
    fn copy(&self) -> Result<FeatureExpr, Memory> {
        self.copy()
    }
}
