//! What types keep of all that is saved.

ghost use Rattle.std.specs.Prelude.{All};
ghost use Rattle.state_save.specs.Savable.{IsSavable, JobFits};
ghost use Rattle.saved_data.specs.declared.job.SavedJob.{SavedJob};
ghost use Rattle.saved_rules.specs.Rules.{IsByRules, TermsByRules};
ghost use Rattle.saved_rules.specs.Typed.{ClusterTyped, PlansTyped};

use crate::typed::Typed;
use saved_data::saved::Saved;

fn tell_cluster(saved: &Saved)
    ensures { ClusterTyped saved.now }
{
    saved.moment.tell();
    saved.next_id.tell();
    saved.partitions.tell();
    saved.nodes.tell();
    saved.dropped.tell();
    saved.usage.tell();
}

fn tell_plans(saved: &Saved)
    ensures { PlansTyped saved.now }
{
    saved.reservations.tell();
    saved.arrays.tell();
    saved.plan.tell();
}

fn tell_jobs(saved: &Saved)
    ensures { All (λ (job : SavedJob). TermsByRules job.terms → JobFits job) saved.now.jobs }
{
    saved.jobs.tell();
}

/// It does nothing: its contract tells that what is saved can be read from its text, where it stands in order and what
/// its jobs ask for is by the rules of sbatch(1). Linear in what is saved.
pub fn tell_savable(saved: &Saved)
    ensures { IsByRules saved.now → IsSavable saved.now }
{
    tell_cluster(saved);
    tell_plans(saved);
    tell_jobs(saved);
}
