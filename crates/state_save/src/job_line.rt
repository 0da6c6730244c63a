//! The line of a job.

ghost use Rattle.std.specs.Prelude.{◌≡◌, ◌≤◌, Some, None, IfOk, IsErrOf};
ghost use Rattle.state_save.specs.Groups.{groups_in, GroupsFit, job_in, job_of};
ghost use Rattle.state_save.specs.Savable.{JobFits};
ghost use Rattle.state_save.specs.Saved.{job_words};

use crate::job_groups::{
    JobIds, JobNames, JobNeeds, JobScript, JobSize, JobStanding, JobWish, push_ids, push_names,
    push_needs, push_script, push_size, push_standing, push_wish, read_ids, read_names, read_needs,
    read_script, read_size, read_standing, read_wish,
};
use crate::line::Line;
use crate::writer::Writer;
use job_table::terms::{SharedTerms, Terms};
use line_words::words::Words;
use saved_data::job::SavedJob;
use small_texts::memory_error::Memory;
use std::alloc::Global;
use text_values::refusal::ValueRefusal;

/// All fields of a job's line.
#[derive(Drop)]
pub struct JobGroups {
    pub ids: JobIds,
    pub names: JobNames,
    pub size: JobSize,
    pub wish: JobWish,
    pub needs: JobNeeds,
    pub script: JobScript,
    pub standing: JobStanding,
}

#[tactic(auto, unfolding(crate::specs::Groups::groups_in))]
fn read_groups(alloc: Global, line: &Words) -> Result<JobGroups, ValueRefusal>
    ensures value { IfOk result (λ groups. groups_in line.now ≡ Some groups) }
    ensures refused { IsErrOf result ValueRefusal.BadValue → groups_in line.now ≡ None }
    ensures fit { IfOk result GroupsFit }
{
    let ids = read_ids(alloc, line)?;
    let size = read_size(alloc, line)?;
    let wish = read_wish(alloc, line)?;
    let script = read_script(alloc, line)?;
    let names = read_names(alloc, line)?;
    let needs = read_needs(alloc, line)?;
    let standing = read_standing(alloc, line)?;
    Ok(JobGroups {
        ids,
        names,
        size,
        wish,
        needs,
        script,
        standing,
    })
}

// The job that has these fields.
fn into_job(alloc: Global, groups: JobGroups) -> Result<SavedJob, Memory>
    ensures { IfOk result (λ job. job ≡ job_of groups) }
{
    let JobGroups {
        ids,
        names,
        size,
        wish,
        needs,
        script,
        standing,
    } = groups;
    let terms = Terms {
        name: names.name,
        account: names.account,
        qos: names.qos,
        reservation: names.reservation,
        tasks: size.tasks,
        cpus_per_task: size.cpus_per_task,
        tasks_per_node: size.tasks_per_node,
        min_nodes: size.min_nodes,
        max_nodes: size.max_nodes,
        mem: size.mem,
        exclusive: size.exclusive,
        begin: wish.begin,
        requeue: wish.requeue,
        features: needs.features,
        required: needs.required,
        excluded: needs.excluded,
        at_once: needs.at_once,
        dependency: needs.dependency,
        run: script.run,
        exit: script.exit,
    };
    Ok(SavedJob {
        id: ids.id,
        array: ids.array,
        index: ids.index,
        user: names.user,
        terms: SharedTerms::of(alloc, terms)?,
        partition: names.partition,
        limit: wish.limit,
        nice: wish.nice,
        submit: script.submit,
        eligible: script.eligible,
        held_by: script.held_by,
        state: script.state,
        starts: standing.starts,
        started: standing.started,
        ended: standing.ended,
        exit: standing.exit,
        last_nodes: standing.last_nodes,
        parts: standing.parts,
    })
}

fn read_job(alloc: Global, line: &Words) -> Result<SavedJob, ValueRefusal>
    ensures value { IfOk result (λ job. job_in line.now ≡ Some job) }
    ensures refused { IsErrOf result ValueRefusal.BadValue → job_in line.now ≡ None }
    ensures fit { IfOk result JobFits }
{
    let groups = read_groups(alloc, line)?;
    let job = into_job(alloc, groups)?;
    Ok(job)
}

impl Line for SavedJob {
    ghost words = { job_words };

    ghost fits = { JobFits };

    ghost follows = { λ before after. before.id ≤ after.id };

    fn push_line(&self, writer: &mut Writer) -> Result<(), Memory> {
        writer.begin_line(b"job")?;
        push_ids(writer, self)?;
        push_names(writer, self)?;
        push_size(writer, self)?;
        push_wish(writer, self)?;
        push_needs(writer, self)?;
        push_script(writer, self)?;
        push_standing(writer, self)?;
        writer.end_line()
    }

    fn read_words(alloc: Global, line: &Words) -> Result<SavedJob, ValueRefusal> {
        read_job(alloc, line)
    }

    fn may_follow(&self, before: &SavedJob) -> bool {
        before.id <= self.id
    }

    fn tell_lines() {}
}
