//! The fields of a job's line, by groups.

ghost use Rattle.std.specs.Prelude.{◌≡◌, ◌++◌, Some, None, IfOk, OnOk, IsErrOf};
ghost use Rattle.state_save.specs.Groups.{behind_blanks, ids_words, ids_in, IdsFit, names_words, names_in, NamesFit, size_words, size_in, SizeFit, wish_words, wish_in, WishFit, needs_words, needs_in, NeedsFit, script_words, script_in, ScriptFit, standing_words, standing_in, StandingFit};

use crate::line_fields::{read_field, read_hosts_field, read_list_field};
use crate::writer::Writer;
use line_words::words::Words;
use plain_data::boxed::Boxed;
use plain_data::dependency::DepSpec;
use plain_data::features::FeatureExpr;
use plain_data::items::Items;
use plain_data::limit::Limit;
use plain_data::mem_ask::MemAsk;
use plain_data::nice::Nice;
use plain_data::ranged::Ranged;
use plain_data::seconds::Moment;
use reply_data::view::NamedPart;
use request_data::state::{HeldBy, JobState};
use saved_data::job::SavedJob;
use small_texts::memory_error::Memory;
use small_texts::name::{JobName, Name};
use std::alloc::Global;
use text_values::refusal::ValueRefusal;

/// Its numbers.
#[derive(Clone, Copy)]
pub struct JobIds {
    pub id: u32,
    pub array: Option<u32>,
    pub index: Option<u32>,
}

/// The names of what it belongs to.
#[derive(Drop)]
pub struct JobNames {
    pub name: JobName,
    pub user: Name,
    pub account: Name,
    pub partition: Name,
    pub qos: Name,
    pub reservation: Option<Name>,
}

/// How much it asks for.
#[derive(Clone, Copy)]
pub struct JobSize {
    pub tasks: Ranged<1, 1048576>,
    pub cpus_per_task: Ranged<1, 1024>,
    pub tasks_per_node: Option<Ranged<1, 1024>>,
    pub min_nodes: Ranged<1, 1024>,
    pub max_nodes: Option<Ranged<1, 1024>>,
    pub mem: MemAsk,
    pub exclusive: bool,
}

/// When it is to run.
#[derive(Clone, Copy)]
pub struct JobWish {
    pub limit: Limit,
    pub begin: Option<Moment>,
    pub nice: Nice,
    pub requeue: bool,
}

/// What it needs of nodes and of other jobs.
#[derive(Drop)]
pub struct JobNeeds {
    pub features: Option<Boxed<FeatureExpr>>,
    pub required: Items<Name>,
    pub excluded: Items<Name>,
    pub at_once: Option<Ranged<1, 4294967295>>,
    pub dependency: Option<Boxed<DepSpec>>,
}

/// Its script, and how it waits.
#[derive(Clone, Copy)]
pub struct JobScript {
    pub run: Ranged<1, 2000000000>,
    pub exit: Ranged<0, 255>,
    pub submit: u64,
    pub eligible: u64,
    pub held_by: HeldBy,
    pub state: JobState,
}

/// What became of its starts.
#[derive(Drop)]
pub struct JobStanding {
    pub starts: u32,
    pub started: Option<u64>,
    pub ended: Option<u64>,
    pub exit: Option<u32>,
    pub last_nodes: Items<Name>,
    pub parts: Items<NamedPart>,
}

#[tactic(auto, unfolding(crate::specs::Groups::ids_words))]
pub fn push_ids(writer: &mut Writer, job: &SavedJob) -> Result<(), Memory>
    ensures { OnOk result (writer.new ≡ writer.old ++ behind_blanks (ids_words job.now)) }
{
    writer.push_value(b"id=", &job.id)?;
    writer.push_value(b"array=", &job.array)?;
    writer.push_value(b"index=", &job.index)
}

#[tactic(auto, unfolding(crate::specs::Groups::ids_in))]
pub fn read_ids(alloc: Global, line: &Words) -> Result<JobIds, ValueRefusal>
    ensures value { IfOk result (λ ids. ids_in line.now ≡ Some ids) }
    ensures refused { IsErrOf result ValueRefusal.BadValue → ids_in line.now ≡ None }
    ensures fit { IfOk result IdsFit }
{
    let id = read_field(alloc, line, 1, b"id=")?;
    let array = read_field(alloc, line, 2, b"array=")?;
    let index = read_field(alloc, line, 3, b"index=")?;
    Ok(JobIds { id, array, index })
}

#[tactic(auto, unfolding(crate::specs::Groups::names_words))]
pub fn push_names(writer: &mut Writer, job: &SavedJob) -> Result<(), Memory>
    ensures { OnOk result (writer.new ≡ writer.old ++ behind_blanks (names_words job.now)) }
{
    let terms = job.terms.get();
    writer.push_value(b"name=", &terms.name)?;
    writer.push_value(b"user=", &job.user)?;
    writer.push_value(b"account=", &terms.account)?;
    writer.push_value(b"partition=", &job.partition)?;
    writer.push_value(b"qos=", &terms.qos)?;
    writer.push_value(b"reservation=", &terms.reservation)
}

#[tactic(auto, unfolding(crate::specs::Groups::names_in))]
pub fn read_names(alloc: Global, line: &Words) -> Result<JobNames, ValueRefusal>
    ensures value { IfOk result (λ names. names_in line.now ≡ Some names) }
    ensures refused { IsErrOf result ValueRefusal.BadValue → names_in line.now ≡ None }
    ensures fit { IfOk result NamesFit }
{
    let name = read_field(alloc, line, 4, b"name=")?;
    let user = read_field(alloc, line, 5, b"user=")?;
    let account = read_field(alloc, line, 6, b"account=")?;
    let partition = read_field(alloc, line, 7, b"partition=")?;
    let qos = read_field(alloc, line, 8, b"qos=")?;
    let reservation = read_field(alloc, line, 9, b"reservation=")?;
    Ok(JobNames {
        name,
        user,
        account,
        partition,
        qos,
        reservation,
    })
}

#[tactic(auto, unfolding(crate::specs::Groups::size_words))]
pub fn push_size(writer: &mut Writer, job: &SavedJob) -> Result<(), Memory>
    ensures { OnOk result (writer.new ≡ writer.old ++ behind_blanks (size_words job.now)) }
{
    let terms = job.terms.get();
    writer.push_value(b"tasks=", &terms.tasks)?;
    writer.push_value(b"cpus=", &terms.cpus_per_task)?;
    writer.push_value(b"pernode=", &terms.tasks_per_node)?;
    writer.push_value(b"least=", &terms.min_nodes)?;
    writer.push_value(b"most=", &terms.max_nodes)?;
    writer.push_value(b"mem=", &terms.mem)?;
    writer.push_value(b"exclusive=", &terms.exclusive)
}

#[tactic(auto, unfolding(crate::specs::Groups::size_in))]
pub fn read_size(alloc: Global, line: &Words) -> Result<JobSize, ValueRefusal>
    ensures value { IfOk result (λ size. size_in line.now ≡ Some size) }
    ensures refused { IsErrOf result ValueRefusal.BadValue → size_in line.now ≡ None }
    ensures fit { IfOk result SizeFit }
{
    let tasks = read_field(alloc, line, 10, b"tasks=")?;
    let cpus_per_task = read_field(alloc, line, 11, b"cpus=")?;
    let tasks_per_node = read_field(alloc, line, 12, b"pernode=")?;
    let min_nodes = read_field(alloc, line, 13, b"least=")?;
    let max_nodes = read_field(alloc, line, 14, b"most=")?;
    let mem = read_field(alloc, line, 15, b"mem=")?;
    let exclusive = read_field(alloc, line, 16, b"exclusive=")?;
    Ok(JobSize {
        tasks,
        cpus_per_task,
        tasks_per_node,
        min_nodes,
        max_nodes,
        mem,
        exclusive,
    })
}

#[tactic(auto, unfolding(crate::specs::Groups::wish_words))]
pub fn push_wish(writer: &mut Writer, job: &SavedJob) -> Result<(), Memory>
    ensures { OnOk result (writer.new ≡ writer.old ++ behind_blanks (wish_words job.now)) }
{
    let terms = job.terms.get();
    writer.push_value(b"limit=", &job.limit)?;
    writer.push_value(b"begin=", &terms.begin)?;
    writer.push_value(b"nice=", &job.nice)?;
    writer.push_value(b"requeue=", &terms.requeue)
}

#[tactic(auto, unfolding(crate::specs::Groups::wish_in))]
pub fn read_wish(alloc: Global, line: &Words) -> Result<JobWish, ValueRefusal>
    ensures value { IfOk result (λ wish. wish_in line.now ≡ Some wish) }
    ensures refused { IsErrOf result ValueRefusal.BadValue → wish_in line.now ≡ None }
    ensures fit { IfOk result WishFit }
{
    let limit = read_field(alloc, line, 17, b"limit=")?;
    let begin = read_field(alloc, line, 18, b"begin=")?;
    let nice = read_field(alloc, line, 19, b"nice=")?;
    let requeue = read_field(alloc, line, 20, b"requeue=")?;
    Ok(JobWish {
        limit,
        begin,
        nice,
        requeue,
    })
}

#[tactic(auto, unfolding(crate::specs::Groups::needs_words))]
pub fn push_needs(writer: &mut Writer, job: &SavedJob) -> Result<(), Memory>
    ensures { OnOk result (writer.new ≡ writer.old ++ behind_blanks (needs_words job.now)) }
{
    let terms = job.terms.get();
    writer.push_value(b"features=", &terms.features)?;
    writer.push_value(b"required=", &terms.required)?;
    writer.push_value(b"excluded=", &terms.excluded)?;
    writer.push_value(b"percent=", &terms.at_once)?;
    writer.push_value(b"dependency=", &terms.dependency)
}

#[tactic(auto, unfolding(crate::specs::Groups::needs_in))]
pub fn read_needs(alloc: Global, line: &Words) -> Result<JobNeeds, ValueRefusal>
    ensures value { IfOk result (λ needs. needs_in line.now ≡ Some needs) }
    ensures refused { IsErrOf result ValueRefusal.BadValue → needs_in line.now ≡ None }
    ensures fit { IfOk result NeedsFit }
{
    let at_once = read_field(alloc, line, 24, b"percent=")?;
    let features = read_field(alloc, line, 21, b"features=")?;
    let required = read_hosts_field(alloc, line, 22, b"required=")?;
    let excluded = read_hosts_field(alloc, line, 23, b"excluded=")?;
    let dependency = read_field(alloc, line, 25, b"dependency=")?;
    Ok(JobNeeds {
        features,
        required,
        excluded,
        at_once,
        dependency,
    })
}

#[tactic(auto, unfolding(crate::specs::Groups::script_words))]
pub fn push_script(writer: &mut Writer, job: &SavedJob) -> Result<(), Memory>
    ensures { OnOk result (writer.new ≡ writer.old ++ behind_blanks (script_words job.now)) }
{
    let terms = job.terms.get();
    writer.push_value(b"run=", &terms.run)?;
    writer.push_value(b"exit=", &terms.exit)?;
    writer.push_value(b"submit=", &job.submit)?;
    writer.push_value(b"eligible=", &job.eligible)?;
    writer.push_value(b"held=", &job.held_by)?;
    writer.push_value(b"state=", &job.state)
}

#[tactic(auto, unfolding(crate::specs::Groups::script_in))]
pub fn read_script(alloc: Global, line: &Words) -> Result<JobScript, ValueRefusal>
    ensures value { IfOk result (λ script. script_in line.now ≡ Some script) }
    ensures refused { IsErrOf result ValueRefusal.BadValue → script_in line.now ≡ None }
    ensures fit { IfOk result ScriptFit }
{
    let run = read_field(alloc, line, 26, b"run=")?;
    let exit = read_field(alloc, line, 27, b"exit=")?;
    let submit = read_field(alloc, line, 28, b"submit=")?;
    let eligible = read_field(alloc, line, 29, b"eligible=")?;
    let held_by = read_field(alloc, line, 30, b"held=")?;
    let state = read_field(alloc, line, 31, b"state=")?;
    Ok(JobScript {
        run,
        exit,
        submit,
        eligible,
        held_by,
        state,
    })
}

#[tactic(auto, unfolding(crate::specs::Groups::standing_words))]
pub fn push_standing(writer: &mut Writer, job: &SavedJob) -> Result<(), Memory>
    ensures { OnOk result (writer.new ≡ writer.old ++ behind_blanks (standing_words job.now)) }
{
    writer.push_value(b"starts=", &job.starts)?;
    writer.push_value(b"started=", &job.started)?;
    writer.push_value(b"ended=", &job.ended)?;
    writer.push_value(b"code=", &job.exit)?;
    writer.push_value(b"last=", &job.last_nodes)?;
    writer.push_values(b"parts=", job.parts.as_slice(), b';')
}

#[tactic(auto, unfolding(crate::specs::Groups::standing_in))]
pub fn read_standing(alloc: Global, line: &Words) -> Result<JobStanding, ValueRefusal>
    ensures value { IfOk result (λ standing. standing_in line.now ≡ Some standing) }
    ensures refused { IsErrOf result ValueRefusal.BadValue → standing_in line.now ≡ None }
    ensures fit { IfOk result StandingFit }
{
    let starts = read_field(alloc, line, 32, b"starts=")?;
    let started = read_field(alloc, line, 33, b"started=")?;
    let ended = read_field(alloc, line, 34, b"ended=")?;
    let exit = read_field(alloc, line, 35, b"code=")?;
    let last_nodes = read_field(alloc, line, 36, b"last=")?;
    let parts = read_list_field(alloc, line, 37, b"parts=", b';')?;
    Ok(JobStanding {
        starts,
        started,
        ended,
        exit,
        last_nodes,
        parts,
    })
}
