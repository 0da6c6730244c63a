//! The controller.

ghost use Rattle.std.specs.Prelude.{◌≡◌, IfOk, IfSome, IfNone, OnOk, OnErr, if◌then◌else◌, Some, None, map, true, All};
ghost use Rattle.request_data.specs.declared.request.Request.TheVariants.{Pass};
ghost use Rattle.resource_profile.specs.Counts.{IsTickedUpTo};
ghost use Rattle.ctl_state.specs.Index.{IsIndexed};
ghost use Rattle.ctl_state.specs.State.{opening, state_of};
ghost use Rattle.ctl_state.specs.Soundness.{IsSound, IsNode, HasLimits};
ghost use Rattle.ctl_core.specs.Step.{IsHinted, input_at, kept_after, reply_of, state_after, is_entered, raised, steps_of, takes_memory};

use crate::answering::ask;
use crate::inputs::find_input;
use crate::ranges::{is_limit, settings_in_range};
use crate::reply::Decided;
use backfill_planner::Planned;
use ctl_pass::PlanInput;
use ctl_state::cluster::Cluster;
use job_table::jobs::Jobs;
use node_state::nodes::Nodes;
use node_state::partition_record::PartRecord;
use node_state::partitions::Partitions;
use node_state::record::NodeRecord;
use node_state::reservations::Reservations;
use plain_data::assoc::AssocFile;
use plain_data::conf::{Conf, Settings};
use request_data::request::Request;
use resource_profile::{Steps, start};
use run_limits::assocs::Assocs;
use small_texts::memory_error::Memory;
use small_texts::name::Name;
use std::alloc::Global;
use std::marker::Model;

/// The controller of one cluster. A contract sees the state of the cluster and the plan that is kept, and not the index
/// of what is held.
#[derive(Drop)]
pub struct Ctl {
    alloc: Global,
    cluster: Cluster,
    // The plan of the last pass that passed or was idle, over which the next one is made. Whichever is kept, a pass does
    // the same.
    kept: Option<Planned>,
}

impl Model for Ctl {
    ghost use Rattle.ctl_core.specs.Views.{CtlView};
    ghost use Rattle.ctl_state.specs.State.{state_of};
    ghost use Rattle.ctl_state.specs.Index.{IsIndexed};
    ghost use Rattle.ctl_state.specs.Soundness.{IsSound};

    ghost Value = { CtlView };

    ghost view = { λ c. record { state = state_of c.cluster; kept = c.kept } };

    ghost invariant = { λ c. IsSound (state_of c.cluster) × IsIndexed c.cluster };
}

impl Ctl {
    /// The opening state of the cluster that the two files describe. Linear in them.
    pub fn new(alloc: Global, conf: Conf, assocs: AssocFile) -> Result<Ctl, Memory>
        ensures opening { IfOk result (λ ctl. ctl.state ≡ opening conf assocs) }
        ensures kept { IfOk result (λ ctl. ctl.kept ≡ None) }
        ensures sound { IfOk result (λ ctl. IsSound ctl.state) }
    {
        settings_in_range(&conf.settings);
        let nodes = Nodes::build(alloc, conf.nodes.into_vec())?;
        nodes_in_range(nodes.records());
        let partitions = Partitions::build(alloc, conf.partitions.into_vec(), &nodes)?;
        partitions_in_range(partitions.records());
        let assocs = Assocs::build(alloc, assocs)?;
        let jobs = Jobs::new(alloc, assocs.records().len())?;
        let cluster = Cluster {
            next_id: conf.settings.first_job_id.get() as u32,
            settings: conf.settings,
            partitions,
            nodes,
            dropped: Vec::new(alloc),
            assocs,
            reservations: Reservations::new(alloc),
            jobs,
            arrays: Vec::new(alloc),
            plan: Vec::new(alloc),
            gone: Vec::new(alloc),
            size: 0,
            is_shut: false,
            moment: 0,
        };
        Ok(Ctl {
            alloc,
            cluster,
            kept: None,
        })
    }

    /// The controller of a cluster as it is, of which all is true that a controller keeps. It keeps no plan. It takes no
    /// memory.
    pub fn over(alloc: Global, cluster: Cluster) -> Ctl
        requires sound { IsSound (state_of cluster) }
        requires indexed { IsIndexed cluster }
        ensures state { result.state ≡ state_of cluster }
        ensures kept { result.kept ≡ None }
    {
        Ctl {
            alloc,
            cluster,
            kept: None,
        }
    }

    /// Lets it go.
    pub fn let_go(self) {}

    /// Decides one request, and changes the state where it is accepted. A submission is linear in associations,
    /// partitions and nodes, sorts the nodes of its partition, costs for each of these what it names of nodes and
    /// features, is linear in its tasks, and for each limit of submitted jobs that it counts towards in the pairs of an
    /// association and a quality of service that jobs were added of, or in the jobs where these are fewer.
    /// What is done to jobs is for each target logarithmic in the jobs and linear in the tasks of its array, of a user's
    /// jobs linear in all, and then linear in the plan; it takes no memory, nor does another state of a partition, which
    /// is linear in the partitions, or a shutdown. A report takes a look for each 64 jobs, is linear in the jobs of those
    /// 64s in which one may hold something of its node, and for each job of the node in what it tells. A new slurm.conf is linear in both files, in the jobs and their parts and in the
    /// plan, and for each reservation in the nodes. A pass costs what its plan costs. A query of jobs or priorities ranks the users, is
    /// linear in the jobs, the parts of those that run or are shown and the plan, and for each job in the targets and
    /// states that it names; one of partitions is linear in the nodes, the jobs' parts and the nodes of the partitions
    /// that it shows.
    pub fn ask(&mut self, now: u64, user: &Name, request: &Request) -> Result<Decided, Memory>
        ensures reply { IfOk result (λ decided. decided.reply ≡ reply_of self.old.state now user.now request.now) }
        ensures entered { IfOk result (λ decided.
            decided.entered ≡ (if is_entered decided.reply then Some decided.reply else None)) }
        ensures moment { IfOk result (λ decided. decided.moment ≡ raised self.old.state now) }
        ensures after { OnOk result (self.new.state ≡ state_after self.old.state now user.now request.now) }
        ensures kept { OnOk result (self.new.kept ≡ kept_after self.old.state self.old.kept now user.now request.now) }
        ensures err { OnErr result (self.new ≡ self.old) }
        ensures memory { OnErr result (takes_memory request.now ≡ true) }
        ensures sound { IsSound self.old.state × IsSound self.new.state }
    {
        ask(
            self.alloc,
            &mut self.cluster,
            &mut self.kept,
            None,
            now,
            user,
            request,
            &mut start(),
        )
    }

    /// Whether a shutdown was accepted. It takes no memory.
    pub fn is_shut(&self) -> bool
        ensures { result ≡ self.now.state.is_shut }
    {
        self.cluster.is_shut
    }

    /// The settings of slurm.conf(5). It takes no memory.
    pub fn settings(&self) -> &Settings
        ensures { result.now ≡ self.now.state.settings }
    {
        &self.cluster.settings
    }

    /// The nodes. It takes no memory.
    pub fn nodes(&self) -> &Nodes
        ensures { result.now.records ≡ self.now.state.nodes }
    {
        &self.cluster.nodes
    }

    /// The table of jobs, with what their associations have used. It takes no memory.
    pub fn jobs(&self) -> &Jobs
        ensures records { result.now.records ≡ self.now.state.jobs }
        ensures usage { result.now.usage ≡ self.now.state.usage }
    {
        &self.cluster.jobs
    }

    /// What the controller keeps, as plain data. It takes no memory.
    pub fn cluster(&self) -> &Cluster
        ensures value { state_of result.now ≡ self.now.state }
        ensures sound { IsSound self.now.state }
    {
        &self.cluster
    }

    /// A pass, whatever plan is at hand: it is made over the hint, else over the plan that is kept, and is the same; its own
    /// plan is kept then, unless it is refused. It counts a step for each job that it searches for: at most one for each
    /// that it plans, where it is allowed, and over a hint, else over the plan that was kept, none for those which stand as
    /// they stood in it.
    pub fn pass<L>(
        &mut self,
        now: u64,
        user: &Name,
        hint: Option<Planned>,
        steps: &mut Steps<L>,
    ) -> Result<Decided, Memory>
        ensures reply { IfOk result (λ decided. decided.reply ≡ reply_of self.old.state now user.now Pass) }
        ensures entered { IfOk result (λ decided.
            decided.entered ≡ (if is_entered decided.reply then Some decided.reply else None)) }
        ensures moment { IfOk result (λ decided. decided.moment ≡ raised self.old.state now) }
        ensures after { OnOk result (self.new.state ≡ state_after self.old.state now user.now Pass) }
        ensures kept { OnOk result (self.new.kept ≡ kept_after self.old.state self.old.kept now user.now Pass) }
        ensures err { OnErr result (self.new ≡ self.old) }
        ensures steps { IsTickedUpTo (steps_of self.old.state now user.now) steps.old steps.new }
        ensures over { IfSome hint (λ hint. IsHinted hint self.old.state now steps.old steps.new) }
        ensures over_kept { IfNone hint
            (IfSome self.old.kept (λ kept. IsHinted kept self.old.state now steps.old steps.new)) }
        ensures sound { IsSound self.old.state × IsSound self.new.state }
    {
        let older = hint.as_ref();
        ask(
            self.alloc,
            &mut self.cluster,
            &mut self.kept,
            older,
            now,
            user,
            &Request::Pass,
            steps,
        )
    }

    /// What a pass by a privileged user at a moment would make its plan of; a moment past the last one counts as that.
    /// A copy of the plan that is kept goes with it. It costs what a pass costs before its plan, beside the copy; where nodes fall silent by then it copies the jobs that hold something of them.
    pub fn input(&mut self, now: u64) -> Result<PlanInput, Memory>
        ensures input { IfOk result (λ input. input.parts ≡ input_at self.old.state now) }
        ensures kept { IfOk result (λ input. input.kept ≡ self.old.kept) }
        ensures stays { self.new ≡ self.old }
        ensures sound { IsSound self.old.state }
    {
        find_input(self.alloc, &mut self.cluster, self.kept.as_ref(), now)
    }
}

// It tells what the type of nodes keeps of them.
fn nodes_in_range(nodes: &[NodeRecord])
    ensures { All IsNode nodes.now }
{
    for node in nodes {
        let _ = node.conf.cpus.get();
        let _ = node.conf.mem.get();
    }
}

fn has_limits(partition: &PartRecord)
    ensures { HasLimits partition.now }
{
    is_limit(&partition.conf.max_time);
    if let Some(limit) = &partition.conf.default_time {
        is_limit(limit);
    }
}

// It tells what the type of partitions keeps of them.
fn partitions_in_range(partitions: &[PartRecord])
    ensures { All HasLimits partitions.now }
{
    for partition in partitions {
        has_limits(partition);
    }
}
