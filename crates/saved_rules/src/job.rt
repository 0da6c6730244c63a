//! What types keep of a job.

ghost use Rattle.state_save.specs.Savable.{JobFits, TermsFit};
ghost use Rattle.saved_rules.specs.Rules.{TermsByRules};
ghost use Rattle.saved_rules.specs.Typed.{NamesTyped, SizesTyped, RunTyped, PersonTyped, TimesTyped, HoldsTyped};

use crate::typed::Typed;
use job_table::terms::Terms;
use saved_data::job::SavedJob;

fn tell_names(terms: &Terms)
    ensures { NamesTyped terms.now }
{
    terms.name.tell();
    terms.account.tell();
    terms.qos.tell();
    terms.reservation.tell();
}

fn tell_sizes(terms: &Terms)
    ensures { SizesTyped terms.now }
{
    terms.tasks.tell();
    terms.cpus_per_task.tell();
    terms.tasks_per_node.tell();
    terms.min_nodes.tell();
    terms.max_nodes.tell();
    terms.mem.tell();
}

fn tell_run(terms: &Terms)
    ensures { RunTyped terms.now }
{
    terms.begin.tell();
    terms.at_once.tell();
    terms.run.tell();
    terms.exit.tell();
}

impl Typed for Terms {
    ghost typed = { λ terms. TermsByRules terms → TermsFit terms };

    fn tell(&self) {
        tell_names(self);
        tell_sizes(self);
        tell_run(self);
    }
}

fn tell_person(job: &SavedJob)
    ensures { PersonTyped job.now }
{
    job.id.tell();
    job.array.tell();
    job.index.tell();
    job.user.tell();
    job.partition.tell();
    job.limit.tell();
    job.nice.tell();
}

fn tell_times(job: &SavedJob)
    ensures { TimesTyped job.now }
{
    job.submit.tell();
    job.eligible.tell();
    job.starts.tell();
    job.started.tell();
    job.ended.tell();
    job.exit.tell();
}

fn tell_holds(job: &SavedJob)
    ensures { HoldsTyped job.now }
{
    job.last_nodes.tell();
    job.parts.tell();
}

impl Typed for SavedJob {
    ghost typed = { λ job. TermsByRules job.terms → JobFits job };

    fn tell(&self) {
        self.terms.get().tell();
        tell_person(self);
        tell_times(self);
        tell_holds(self);
    }
}
