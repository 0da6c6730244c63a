//! What is asked is by the rules of sbatch(1).

ghost use Rattle.std.specs.Prelude.{◌≡◌, ℕ, List, Option, Some, Ok};
ghost use Rattle.command_words.specs.FramedHeader.{asked_at};
ghost use Rattle.command_words.specs.Header.{meaning_in};
ghost use Rattle.command_words.specs.declared.framed.Caller.{Caller};
ghost use Rattle.plain_data.specs.declared.dependency.DepSpec.{DepSpec};
ghost use Rattle.plain_data.specs.declared.features.FeatureExpr.{FeatureExpr};
ghost use Rattle.plain_data.specs.declared.job.JobDesc.{JobDesc};
ghost use Rattle.sbatch_reader.specs.Dependency.{dependency_in};
ghost use Rattle.sbatch_reader.specs.Features.{features_in};
ghost use Rattle.sbatch_reader.specs.Job.{job_in};
ghost use Rattle.saved_rules.specs.Rules.{AsksByRules, DescByRules};
ghost use Rattle.state_save.specs.Fitting.{DependencyFits, FeaturesFit};

use plain_data::{dependency, features};
use state_save::word::Word;

fn features_fit()
    ensures { (text : List ℕ) (features : FeatureExpr) → features_in text ≡ Some features → FeaturesFit features }
{
    features::FeatureExpr::tell_fits();
}

fn dependencies_fit()
    ensures { (text : List ℕ) (dependency : DepSpec) → dependency_in text ≡ Some dependency → DependencyFits dependency }
{
    dependency::DepSpec::tell_fits();
}

/// The job that a command and its script ask for wants nodes and waits for jobs by the rules of sbatch(1): a list of
/// features is one of some names, nodes are named once and are 1,024 at most, and a dependency names 64 jobs at most.
pub fn what_sbatch_asks_is_by_the_rules()
    ensures { (now : ℕ) (words : List (List ℕ)) (script : Option (List ℕ)) (desc : JobDesc)
        → job_in now words script ≡ Ok desc → DescByRules desc }
{
    features_fit();
    dependencies_fit();
}

/// So does whatever a block asks, in either form.
pub fn what_is_asked_is_by_the_rules()
    ensures plain { (header : List ℕ) (attachment : Option (List ℕ)) → AsksByRules (meaning_in header attachment) }
    ensures framed { (caller : Caller) (moment : ℕ) (attachment : Option (List ℕ))
        → AsksByRules (asked_at caller moment attachment) }
{
    what_sbatch_asks_is_by_the_rules();
}
