//! The table of jobs, in the order of their numbers, with an index of these; and what their associations have used.

ghost use Rattle.std.specs.Prelude.{◌≡◌, ◌+◌, ◌^◌, ◌<◌, ◌≤◌, ◌↔◌, ◌++◌, [], ◌∷◌, ℕ, IfOk, IfSome, true, false, IsErrOf, IsTrue, OnOk, OnErr, All, length, map, filter, not, replicate, slice_get, option_copied, take, drop, unwrap_or};
ghost use Rattle.std.specs.List.{AllWithin, HoldsAt};
ghost use Rattle.indexmap.specs.IndexMap.{spare, values};
ghost use Rattle.job_table.specs.declared.record.JobRecord.{JobRecord};
ghost use Rattle.job_table.specs.Changes.{changed};
ghost use Rattle.job_table.specs.Table.{HaveRisingIds, IsTable, changed_if, entry_of, is_old, job_with, put_back_if};
ghost use Rattle.job_table.specs.Awaiting.{has_gone};
ghost use Rattle.job_table.specs.Targets.{AreTogether, found_by, is_named};
ghost use Rattle.job_table.specs.Usage.{Charges, IsNoStart, charged_by, is_start};
ghost use Rattle.job_table.specs.Moving.{partition_moved, parts_moved};
ghost use Rattle.job_table.specs.Walks.{map_at};
ghost use Rattle.job_table.specs.Behind.{NoneWaitsBehind};
ghost use Rattle.job_table.specs.Blocks.{holds_on};
ghost use Rattle.job_table.specs.JobStates.{is_holding};
ghost use Rattle.job_table.specs.Tallies.{ShowsUnended};

use crate::awaited::Awaited;
use crate::behind::{one_waits_behind, still_waits_behind, waits_behind};
use crate::blocks::{BLOCK, Block, count_from, count_left, follow, next_in_holding};
use crate::change::{Change, apply};
use crate::moving::{move_partition, move_parts};
use crate::on_node::next_on;
use crate::record::JobRecord;
use crate::targets::{Places, place_of_task, places_of, rise_from};
use crate::unended::{Tallies, Unended, pair_of};
use crate::usage::charge;
use indexmap::IndexMap;
use request_data::state::JobState;
use request_data::target::Target;
use std::alloc::{AllocError, AllocFailed, Global};
use std::error::Error;
use std::fmt;
use std::marker::Model;

/// Why no job is added.
#[derive(Clone, Copy, PartialEq, Eq, Debug)]
pub enum AddRefusal {
    /// There would be more jobs than may be kept.
    Full,
    Memory,
}

impl fmt::Display for AddRefusal {
    ghost use Rattle.std.specs.Prelude.{Some};
    ghost use Rattle.job_table.specs.Refusals.{add_message};

    ghost output = { λ refusal. Some (add_message refusal) };

    fn fmt<W: fmt::Write>(&self, f: &mut fmt::Formatter<W>) -> fmt::Result {
        f.write_str(match self {
            AddRefusal::Full => "too many jobs",
            AddRefusal::Memory => "out of memory",
        })
    }
}

impl Error for AddRefusal {}

impl From<AllocError> for AddRefusal {
    ghost use Rattle.std.specs.Prelude.{◌≡◌};
    ghost use Rattle.job_table.specs.declared.jobs.AddRefusal.TheVariants.{Memory};

    ghost from_gives = { λ _ refusal. refusal ≡ Memory };

    fn from(_error: AllocError) -> AddRefusal {
        AddRefusal::Memory
    }
}

impl<T: Drop> From<AllocFailed<T>> for AddRefusal {
    ghost use Rattle.std.specs.Prelude.{◌≡◌};
    ghost use Rattle.job_table.specs.declared.jobs.AddRefusal.TheVariants.{Memory};

    ghost from_gives = { λ _ refusal. refusal ≡ Memory };

    fn from(_error: AllocFailed<T>) -> AddRefusal {
        AddRefusal::Memory
    }
}

/// The jobs. A contract sees their records, in the order of their numbers, and what the starts of each association's
/// jobs have used that left Running. slurm.conf(5), MaxJobCount.
#[derive(Drop)]
pub struct Jobs {
    by_id: IndexMap<u32, JobRecord>,
    // In seconds of one processor.
    usage: Vec<u64>,
    // Whether it is known that the indices of each array's tasks rise with their numbers, as they do of all that are
    // handed in: then a search finds one.
    by_index: bool,
    // For each 64 places what the jobs there may hold.
    blocks: Vec<Block>,
    // How many jobs haven't ended, by association and quality of service.
    unended: Tallies,
    // Whether a job may wait for those before it of its user and name, by its terms.
    may_wait_behind: bool,
}

impl Model for Jobs {
    ghost use Rattle.indexmap.specs.IndexMap.{values};
    ghost use Rattle.job_table.specs.Table.{IsJobTable, JobsView};

    ghost Value = { JobsView };

    ghost view = { λ jobs. record { records = values jobs.by_id; usage = jobs.usage.items } };

    ghost invariant = { λ jobs. IsJobTable jobs.by_id.entries jobs.by_index jobs.blocks.items jobs.unended jobs.may_wait_behind };
}

impl Jobs {
    /// No jobs, of so many associations that have used nothing.
    pub fn new(alloc: Global, assocs: usize) -> Result<Jobs, AllocError>
        ensures records { IfOk result (λ jobs. jobs.records ≡ []) }
        ensures usage { IfOk result (λ jobs. jobs.usage ≡ replicate assocs 0) }
    {
        Ok(Jobs {
            by_id: IndexMap::new(alloc),
            usage: vec![in alloc; 0; assocs]?,
            by_index: true,
            blocks: Vec::new(alloc),
            unended: Tallies::new(alloc),
            may_wait_behind: false,
        })
    }

    /// The records, in the order of their numbers, in constant time.
    pub fn records(&self) -> &[JobRecord]
        ensures value { result.now ≡ self.now.records }
        ensures rising { HaveRisingIds self.now.records }
    {
        self.by_id.values().as_slice()
    }

    /// What the starts of each association's jobs have used that left Running, in seconds of one processor and in the
    /// order of the associations. In constant time.
    pub fn usage(&self) -> &[u64]
        ensures { result.now ≡ self.now.usage }
    {
        self.usage.as_slice()
    }

    /// How many jobs there are.
    pub fn len(&self) -> usize
        ensures value { result ≡ length self.now.records }
        ensures small { result < 2 ^ 63 }
    {
        self.by_id.len()
    }

    /// Whether there are no jobs.
    pub fn is_empty(&self) -> bool
        ensures { IsTrue result ↔ (self.now.records ≡ []) }
    {
        self.by_id.is_empty()
    }

    /// The job with this number, in constant time.
    pub fn get(&self, id: u32) -> Option<&JobRecord>
        ensures { option_copied result ≡ job_with id self.now.records }
    {
        self.by_id.get(&id)
    }

    /// Where the jobs lie that the target names: it names none before and behind. Logarithmic in all jobs; where it names
    /// a number alone, linear in those that have it.
    pub fn places_of(&self, target: &Target) -> Places
        requires { AreTogether self.now.records }
        ensures within { (result.first ≤ result.end) × (result.end ≤ length self.now.records) }
        ensures before { All (λ job. is_named target.now job ≡ false) (take result.first self.now.records) }
        ensures behind { All (λ job. is_named target.now job ≡ false) (drop result.end self.now.records) }
    {
        match target.index {
            Some(index) if self.by_index => place_of_task(self.records(), target.id, index),
            _ => places_of(self.records(), target),
        }
    }

    /// The jobs among which all are that the target names. Logarithmic in all jobs; where it names a number alone, linear
    /// in those that have it.
    pub fn span_of(&self, target: &Target) -> &[JobRecord]
        requires { AreTogether self.now.records }
        ensures { filter (is_named target.now) result.now ≡ filter (is_named target.now) self.now.records }
    {
        let places = self.places_of(target);
        &self.records()[places.first..places.end]
    }

    /// The first place from one on at which a job may hold something of the node; none before it does. One look for each
    /// 64 places of which no job holds any of it, and else linear in their jobs' parts.
    pub fn next_on(&self, node: u32, from: usize) -> Option<usize>
        ensures there { IfSome result (λ place. (from ≤ place) × (place < length self.now.records)) }
        ensures before { AllWithin (λ job. holds_on node job ≡ false) self.now.records from
            (unwrap_or result (length self.now.records)) }
    {
        let _ = self.len();
        next_on(self.blocks.as_slice(), self.records(), node, from)
    }

    /// The first place from one on at which a job may hold processors; none before it does. One look for each 64 places
    /// that are left out.
    pub fn next_holding(&self, from: usize) -> Option<usize>
        ensures there { IfSome result (λ place. (from ≤ place) × (place < length self.now.records)) }
        ensures before { AllWithin (λ job. is_holding job.state ≡ false) self.now.records from
            (unwrap_or result (length self.now.records)) }
    {
        next_in_holding(self.blocks.as_slice(), self.len(), from)
    }

    /// How many jobs haven't ended, by association and quality of service, in constant time. It isn't known once a record
    /// was put back of an association and a quality of service that no job was added of.
    pub fn unended(&self) -> Option<&[Unended]>
        ensures { IfSome result (λ tallies. ShowsUnended tallies.now self.now.records) }
    {
        if self.unended.known {
            Some(self.unended.list.as_slice())
        } else {
            None
        }
    }

    /// Whether a job may wait for those before it of its user and name, by its terms. In constant time.
    pub(crate) fn may_wait_behind(&self) -> bool
        ensures { result ≡ false → NoneWaitsBehind self.now.records }
    {
        self.may_wait_behind
    }

    /// Adds these jobs, whose numbers rise and are above all others, where with them there are at most so many. Linear
    /// in them, but for a table that outgrows its memory; want of memory leaves the table as it was.
    pub fn add(&mut self, more: Vec<JobRecord>, most: u64) -> Result<(), AddRefusal>
        requires rising { HaveRisingIds more.items }
        requires above { All (λ (one : JobRecord). All (λ (other : JobRecord). one.id < other.id) more.items)
            self.old.records }
        ensures ok { OnOk result (self.new.records ≡ self.old.records ++ more.items) }
        ensures usage { self.new.usage ≡ self.old.usage }
        ensures err { OnErr result (self.new ≡ self.old) }
        ensures few { OnOk result (length self.old.records + length more.items ≤ most) }
        ensures full { IsErrOf result AddRefusal.Full ↔ (most < length self.old.records + length more.items) }
    {
        let before = self.len();
        if before as u64 + more.len() as u64 > most {
            return Err(AddRefusal::Full);
        }
        self.by_id.reserve(more.len())?;
        self.blocks.reserve(more.len() / BLOCK + 1)?;
        self.unended.open(more.as_slice())?;
        self.unended.add(more.as_slice());
        self.may_wait_behind |= one_waits_behind(more.as_slice());
        insert_all(&mut self.by_id, more);
        let jobs = self.by_id.values().as_slice();
        let known = rise_from(self.by_index, jobs, before);
        count_from(&mut self.blocks, jobs, before / BLOCK);
        self.by_index = known;
        Ok(())
    }

    /// Changes the job with this number, in constant time beside the job's parts, and where it has let go of the last one
    /// beside those of its 64 neighbours. It takes no memory.
    pub fn change(&mut self, id: u32, change: Change)
        ensures records { self.new.records ≡ map (changed_if id change) self.old.records }
        ensures charges { (now : ℕ) → IsNoStart now change → Charges now self.old self.new }
        ensures starts { is_start change ≡ true → self.new.usage ≡ self.old.usage }
    {
        if let Some(place) = self.by_id.get_index_of(&id) {
            self.change_at(place, change);
        }
    }

    /// Changes the job at a place, in constant time beside the job's parts, and where it has let go of the last one beside
    /// those of its 64 neighbours. Where it leaves Running its association is charged with what it has used. It takes no
    /// memory.
    pub fn change_at(&mut self, place: usize, change: Change)
        requires { place < length self.old.records }
        ensures records { self.new.records ≡ map_at place (changed change) self.old.records }
        ensures usage { self.new.usage ≡ charged_by change (slice_get self.old.records place) self.old.usage }
        ensures charges { (now : ℕ) → IsNoStart now change → Charges now self.old self.new }
        ensures starts { is_start change ≡ true → self.new.usage ≡ self.old.usage }
    {
        let alloc = *self.by_id.allocator();
        let before = pair_of(&self.by_id[place]);
        let held = holds_any(&self.by_id[place]);
        charge(&mut self.usage, &self.by_id[place], &change);
        apply(alloc, &mut self.by_id[place], change);
        let after = pair_of(&self.by_id[place]);
        self.unended.change(before, after);
        let jobs = self.by_id.values().as_slice();
        follow(&mut self.blocks, jobs, place, held);
    }

    /// The jobs' parts are on the same nodes, which are at other places now: for each place the new one is told. Linear
    /// in the jobs and their parts; it takes no memory.
    pub fn move_parts(&mut self, places: &[u32])
        ensures records { self.new.records ≡ map (parts_moved places.now) self.old.records }
        ensures usage { self.new.usage ≡ self.old.usage }
    {
        let alloc = *self.by_id.allocator();
        move_all_parts(alloc, &mut self.by_id, places);
        let jobs = self.by_id.values().as_slice();
        count_from(&mut self.blocks, jobs, 0);
    }

    /// The jobs are of the same partitions, which are at other places now: for each place the new one is told. Linear in
    /// the jobs; it takes no memory.
    pub fn move_partitions(&mut self, places: &[u32])
        ensures records { self.new.records ≡ map (partition_moved places.now) self.old.records }
        ensures usage { self.new.usage ≡ self.old.usage }
    {
        move_all_partitions(&mut self.by_id, places);
    }

    /// Puts a record in the place of the one with its number, if there is one, in constant time beside what the job holds
    /// and waits for: so a change is taken back whose job was copied before (own). It takes no memory.
    pub fn put_back(&mut self, job: JobRecord)
        ensures records { self.new.records ≡ map (put_back_if job) self.old.records }
        ensures usage { self.new.usage ≡ self.old.usage }
    {
        if let Some(place) = self.by_id.get_index_of(&job.id) {
            self.put_at(place, job);
        }
    }

    // Puts a record in the place of one with its number.
    fn put_at(&mut self, place: usize, job: JobRecord)
        requires there { place < length self.old.records }
        requires same { HoldsAt (λ other. other.id ≡ job.id) self.old.records place }
        ensures records { self.new.records ≡ map_at place (λ other. job) self.old.records }
        ensures usage { self.new.usage ≡ self.old.usage }
    {
        let before = pair_of(&self.by_id[place]);
        let after = pair_of(&job);
        let had = holds_any(&self.by_id[place]);
        let same = are_found_alike(&self.by_id[place], &job);
        self.may_wait_behind |= waits_behind(job.terms());
        self.by_id[place] = job;
        self.by_index = self.by_index && same;
        self.unended.change(before, after);
        let jobs = self.by_id.values().as_slice();
        follow(&mut self.blocks, jobs, place, had);
    }

    /// Puts back what the associations had used (own). It takes no memory.
    pub fn put_usage_back(&mut self, usage: Vec<u64>)
        ensures records { self.new.records ≡ self.old.records }
        ensures usage { self.new.usage ≡ usage.items }
    {
        self.usage = usage;
    }

    /// Drops the records of jobs that ended so many seconds ago, but for those that are awaited, all in one walk. It
    /// takes no memory. slurm.conf(5), MinJobAge.
    pub fn purge(&mut self, now: u64, age: u64, awaited: &Awaited)
        ensures usage { self.new.usage ≡ self.old.usage }
        ensures records { self.new.records ≡ filter (λ job. not (has_gone age now awaited.now job)) self.old.records }
    {
        let before = self.len();
        self.by_id.retain(
            |_id: &u32, job: &mut JobRecord| -> bool
                ensures { (result ≡ not (has_gone age now awaited.entry.now job.old)) × (job.new ≡ job.old) }
            { !has_gone(age, now, awaited, job) },
        );
        let jobs = self.by_id.values().as_slice();
        count_left(&mut self.blocks, jobs, before);
        self.may_wait_behind = still_waits_behind(self.may_wait_behind, jobs);
    }
}

fn move_all_parts(alloc: Global, by_id: &mut IndexMap<u32, JobRecord>, places: &[u32])
    requires { IsTable by_id.old.entries }
    ensures { by_id.new.entries ≡ map entry_of (map (parts_moved places.now) (values by_id.old)) }
{
    for place in 0..by_id.len() {
        move_parts(alloc, &mut by_id[place], places);
    }
}

fn move_all_partitions(by_id: &mut IndexMap<u32, JobRecord>, places: &[u32])
    requires { IsTable by_id.old.entries }
    ensures { by_id.new.entries ≡ map entry_of (map (partition_moved places.now) (values by_id.old)) }
{
    for place in 0..by_id.len() {
        move_partition(&mut by_id[place], places);
    }
}

// Whether the jobs are found by the same array and the same index.
fn are_found_alike(one: &JobRecord, other: &JobRecord) -> bool
    ensures { result ≡ true → (one.now.array ≡ other.now.array) × (one.now.index ≡ other.now.index) }
{
    one.array == other.array && one.index == other.index
}

// Whether the job holds something.
fn holds_any(job: &JobRecord) -> bool {
    !job.parts.as_slice().is_empty()
}

// Puts jobs whose numbers rise and are above all others behind these, where there is room for them.
fn insert_all(by_id: &mut IndexMap<u32, JobRecord>, more: Vec<JobRecord>)
    requires table { IsTable by_id.old.entries }
    requires room { length more.items ≤ spare by_id.old }
    requires rising { HaveRisingIds (values by_id.old ++ more.items) }
    ensures { by_id.new.entries ≡ map entry_of (values by_id.old ++ more.items) }
{
    for job in more {
        insert(by_id, job);
    }
}

// Puts a job whose number is above all others behind these, where there is room for it.
fn insert(by_id: &mut IndexMap<u32, JobRecord>, job: JobRecord)
    requires table { IsTable by_id.old.entries }
    requires room { 0 < spare by_id.old }
    requires above { All (λ (one : JobRecord). one.id < job.id) (values by_id.old) }
    ensures entries { by_id.new.entries ≡ map entry_of (values by_id.old ++ job ∷ []) }
    ensures room { spare by_id.old ≤ spare by_id.new + 1 }
{
    let _old = by_id.insert(job.id, job).unwrap();
}

/// Whether the job ended so many seconds ago; an age of 0 keeps all.
pub fn is_old(age: u64, now: u64, job: &JobRecord) -> bool
    ensures { result ≡ is_old age now job.now }
{
    match job.state {
        JobState::Ended(_) => {
            let since = now.checked_sub(job.ended.unwrap_or(0));
            age != 0 && since.is_some_and(|seconds| seconds >= age)
        }
        _ => false,
    }
}

/// Whether the record of a job goes that ended so many seconds ago: no pending job waits for it (own).
pub fn has_gone(age: u64, now: u64, awaited: &Awaited, job: &JobRecord) -> bool
    ensures { result ≡ has_gone age now awaited.now job.now }
{
    is_old(age, now, job) && !awaited.has(job)
}
