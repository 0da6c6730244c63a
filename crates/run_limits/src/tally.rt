//! What jobs count towards limits, added up.

ghost use Rattle.std.specs.Prelude.{◌≡◌, ◌&&◌, ◌<◌, ℕ, true, AllPairs, IfOk, OnOk, nat_eq, Option};
ghost use Rattle.std.specs.List.{list_any};
ghost use Rattle.std.specs.HashMap.{get};
ghost use Rattle.run_limits.specs.Counting.{is_number};
ghost use Rattle.run_limits.specs.Tallies.{is_same_pair, kept, with_job_if};

use crate::account_laws::numbers_tell_users_apart;
use crate::assocs::Assocs;
use crate::counted::{Counted, Counts, Group};
use small_texts::memory_error::Memory;
use std::alloc::Global;
use std::collections::HashMap;
use std::hash::Hash;

/// What jobs count, those of each group together (own). Contracts say what it shows (`Shows`).
#[derive(Drop)]
pub struct Tally {
    arrays: HashMap<u32, Counts>,
    below: HashMap<u32, Counts>,
    qos: HashMap<u32, Counts>,
    // By the number of the user and the place of the quality of service.
    users: HashMap<(u32, u32), Counts>,
}

const NO_COUNTS: Counts = Counts { jobs: 0, cpus: 0 };

// One job more, with so many processors.
fn with_job(counts: Counts, cpus: u64) -> Result<Counts, Memory>
    ensures { IfOk result (λ more. more ≡ with_job_if true cpus counts) }
{
    let Some(jobs) = counts.jobs.checked_add(1) else {
        return Err(Memory);
    };
    let Some(cpus) = counts.cpus.checked_add(cpus) else {
        return Err(Memory);
    };
    Ok(Counts { jobs, cpus })
}

// One job more counts under a key.
fn count<K: Eq + Hash + Drop>(
    counts: &mut HashMap<K, Counts>,
    key: K,
    cpus: u64,
) -> Result<(), Memory>
    ensures { OnOk result ((other : K)
        → kept (get K.eq counts.new other) ≡ with_job_if (K.eq key other) cpus (kept (get K.eq counts.old other))) }
{
    let counted = counts.entry(key)?.or_insert(NO_COUNTS);
    *counted = with_job(*counted, cpus)?;
    Ok(())
}

fn count_array(arrays: &mut HashMap<u32, Counts>, job: &Counted) -> Result<(), Memory>
    ensures { OnOk result ((array : ℕ) → kept (get nat_eq arrays.new array)
        ≡ with_job_if (is_number array job.now.array) job.now.cpus (kept (get nat_eq arrays.old array))) }
{
    match job.array {
        Some(array) => count(arrays, array, job.cpus),
        None => Ok(()),
    }
}

// The job counts at each of these places, none of which comes twice.
fn count_above(below: &mut HashMap<u32, Counts>, places: &[u32], cpus: u64) -> Result<(), Memory>
    requires { AllPairs (λ (lower upper : ℕ). upper < lower) places.now }
    ensures { OnOk result ((place : ℕ) → kept (get nat_eq below.new place)
        ≡ with_job_if (list_any (nat_eq place) places.now) cpus (kept (get nat_eq below.old place))) }
{
    for place in places {
        count(below, *place, cpus)?;
    }
    Ok(())
}

// The job counts for its user, who has this number, in its quality of service.
fn count_user(
    users: &mut HashMap<(u32, u32), Counts>,
    user: Option<u32>,
    job: &Counted,
) -> Result<(), Memory>
    ensures { OnOk result ((other qos : ℕ) → kept (get is_same_pair users.new (other, qos))
        ≡ with_job_if (is_number other user && nat_eq job.now.qos qos) job.now.cpus
        (kept (get is_same_pair users.old (other, qos)))) }
{
    let Some(user) = user else {
        return Ok(());
    };
    count(users, (user, job.qos), job.cpus)?;
    Ok(())
}

impl Tally {
    ghost use Rattle.std.specs.Prelude.{◌≡◌, ◌++◌, ◌∷◌, [], IfOk, OnOk, List};
    ghost use Rattle.run_limits.specs.declared.record.AssocRecord.{AssocRecord};
    ghost use Rattle.run_limits.specs.declared.counted.Counted.{Counted as CountedJob};
    ghost use Rattle.run_limits.specs.Tallies.{Shows, told};

    /// A tally of no jobs.
    #[tactic(auto, unfolding(crate::specs::Tallies::Shows, crate::specs::Tallies::told))]
    pub fn new(alloc: Global) -> Result<Tally, Memory>
        ensures { IfOk result (λ tally. (assocs : List AssocRecord) → Shows assocs tally []) }
    {
        Ok(Tally {
            arrays: HashMap::new(alloc),
            below: HashMap::new(alloc),
            qos: HashMap::new(alloc),
            users: HashMap::new(alloc),
        })
    }

    /// One job more is counted: linear in its way up to root, each step in constant time. After want of memory the
    /// tally is of no use; a sum that 64 bits don't hold is want of memory, too.
    pub fn add(&mut self, assocs: &Assocs, job: &Counted) -> Result<(), Memory>
        ensures { OnOk result ((jobs : List CountedJob) → Shows assocs.now.records self.old jobs
            → Shows assocs.now.records self.new (jobs ++ job.now ∷ [])) }
    {
        numbers_tell_users_apart();
        count_array(&mut self.arrays, job)?;
        count_above(
            &mut self.below,
            assocs.above(job.assoc).as_slice(),
            job.cpus,
        )?;
        count(&mut self.qos, job.qos, job.cpus)?;
        count_user(&mut self.users, assocs.user_number(job.assoc), job)?;
        Ok(())
    }

    /// What the jobs of a group count, in constant time.
    #[tactic(auto, unfolding(crate::specs::Tallies::told))]
    pub fn counts(&self, assocs: &Assocs, group: Group) -> Counts
        ensures { result ≡ told assocs.now.records self.now group }
    {
        let counted = match group {
            Group::Array(array) => self.arrays.get(&array),
            Group::Below(place) => self.below.get(&place),
            Group::InQos(qos) => self.qos.get(&qos),
            Group::OfUser { assoc, qos } => match assocs.user_number(assoc) {
                Some(user) => self.users.get(&(user, qos)),
                None => None,
            },
        };
        counted.copied().unwrap_or(NO_COUNTS)
    }
}
