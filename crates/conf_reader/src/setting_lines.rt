//! Lines of settings.

ghost use Rattle.std.specs.Prelude.{ℕ, ◌≡◌, ◌≢◌, ◌==◌, ◌≤◌, ◌<◌, ◌^◌, ◌∷◌, [], length, map, option_map, unwrap_or};
ghost use Rattle.std.specs.Prelude.{codes, bytes_eq, IfOk, IfSome, OnOk, IsErrOf, Some, None, Ok, Err};
ghost use Rattle.std.specs.List.{list_any};
ghost use Rattle.text_values.specs.Keys.{setting_key};
ghost use Rattle.conf_reader.specs.SettingLines.{minutes_in, only, select_parameters, choice_in, setting_entry, setting_word};
ghost use Rattle.conf_reader.specs.SettingLines.{setting_line};
ghost use Rattle.text_values.specs.Numbers.{number_in};
ghost use Rattle.text_values.specs.declared.conf_refusal.ConfKind.{ConfKind};

use crate::pairs::read_pair;
use crate::words::first_word;
use plain_data::conf::Settings;
use plain_data::limit::Limit;
use plain_data::mem_ask::MemAsk;
use plain_data::ranged::Ranged;
use small_texts::memory_error::Memory;
use small_texts::name::Name;
use std::alloc::Global;
use text_values::conf_refusal::{ConfKind, Fault};
use text_values::keys::{SettingKey, setting_key};
use text_values::names::read_name;
use text_values::numbers::{read_number, read_u32};
use text_values::refusal::ValueRefusal;
use text_values::scheduler::{Scheduler, read_scheduler};
use text_values::times::read_limit;
use text_values::values::{read_mem_per_cpu, read_mem_per_node};

/// What one word of a line says.
#[derive(Drop)]
pub(crate) enum SettingEntry {
    FirstJobId(Ranged<1, 67043328>),
    MaxJobCount(Ranged<1, 20000>),
    MaxArraySize(Ranged<1, 10001>),
    MinJobAge(Ranged<0, 65533>),
    SlurmdTimeout(Ranged<0, 65533>),
    JobRequeue(bool),
    SlurmUser(Name),
    MaxAge(Ranged<1, 52560000>),
    WeightAge(u32),
    WeightFairshare(u32),
    WeightJobSize(u32),
    WeightPartition(u32),
    WeightQos(u32),
    Plans(Scheduler),
    Mem(MemAsk),
    /// `PreemptType`: whether it is `preempt/qos`.
    ByQos(bool),
    /// `PreemptMode`: whether it is `REQUEUE`.
    Requeues(bool),
    WithoutEffect,
}

/// What the words of a file's lines of settings say.
#[derive(Drop)]
pub struct SettingWords {
    pub(crate) first_job_id: Option<Ranged<1, 67043328>>,
    pub(crate) max_job_count: Option<Ranged<1, 20000>>,
    pub(crate) max_array_size: Option<Ranged<1, 10001>>,
    pub(crate) min_job_age: Option<Ranged<0, 65533>>,
    pub(crate) slurmd_timeout: Option<Ranged<0, 65533>>,
    pub(crate) job_requeue: Option<bool>,
    pub(crate) slurm_user: Option<Name>,
    pub(crate) max_age: Option<Ranged<1, 52560000>>,
    pub(crate) weight_age: Option<u32>,
    pub(crate) weight_fairshare: Option<u32>,
    pub(crate) weight_job_size: Option<u32>,
    pub(crate) weight_partition: Option<u32>,
    pub(crate) weight_qos: Option<u32>,
    pub(crate) plans: Scheduler,
    pub(crate) mem: Option<MemAsk>,
    /// Whether `PreemptType` is `preempt/qos`.
    pub(crate) by_qos: Option<bool>,
    /// Whether `PreemptMode` is `REQUEUE`.
    pub(crate) requeues: Option<bool>,
}

// A time of at least a minute, with an end.
#[tactic(auto, unfolding(crate::specs::SettingLines::minutes_in))]
fn read_minutes(text: &[u8]) -> Option<Ranged<1, 52560000>>
    ensures { result ≡ minutes_in text.now }
{
    let limit = read_limit(text)?;
    match limit {
        Limit::Minutes(minutes) => Some(minutes),
        Limit::Unlimited => None,
    }
}

fn read_requeue(text: &[u8]) -> Option<SettingEntry>
    ensures { result ≡ option_map (λ number. SettingEntry.JobRequeue (number == 1)) (number_in 0 1 text.now) }
{
    let number: Ranged<0, 1> = read_number(text)?;
    Some(SettingEntry::JobRequeue(number.get() == 1))
}

fn is_one_of(text: &[u8], texts: &[&[u8]]) -> bool
    ensures { result ≡ list_any (bytes_eq text.now) (map (λ t. t.now) texts.now) }
{
    for word in texts {
        if text == *word {
            return true;
        }
    }
    false
}

// The only texts that a key takes, where they have no effect.
fn only(text: &[u8], texts: &[&[u8]]) -> Option<SettingEntry>
    ensures { result ≡ only (map (λ t. t.now) texts.now) text.now }
{
    if is_one_of(text, texts) {
        Some(SettingEntry::WithoutEffect)
    } else {
        None
    }
}

#[tactic(auto, unfolding(crate::specs::SettingLines::select_parameters))]
fn read_select_parameters(text: &[u8]) -> Option<SettingEntry>
    ensures { result ≡ select_parameters text.now }
{
    only(
        text,
        &[b"CR_CPU_Memory", b"CR_CPU", b"CR_Core", b"CR_Core_Memory"],
    )
}

// Whether a text is the one that turns something on, and not the one that leaves it off.
fn choice(text: &[u8], off: &[u8], on: &[u8]) -> Option<bool>
    ensures { result ≡ choice_in off.now on.now text.now }
{
    if text == off {
        Some(false)
    } else if text == on {
        Some(true)
    } else {
        None
    }
}

fn read_preempt_type(text: &[u8]) -> Option<SettingEntry>
    ensures { result ≡ option_map SettingEntry.ByQos (choice_in (codes "preempt/none") (codes "preempt/qos") text.now) }
{
    choice(text, b"preempt/none", b"preempt/qos").map(SettingEntry::ByQos)
}

fn read_preempt_mode(text: &[u8]) -> Option<SettingEntry>
    ensures { result ≡ option_map SettingEntry.Requeues (choice_in (codes "OFF") (codes "REQUEUE") text.now) }
{
    choice(text, b"OFF", b"REQUEUE").map(SettingEntry::Requeues)
}

// What a key and its value say, where that takes no memory.
#[tactic(auto, unfolding(crate::specs::SettingLines::setting_entry))]
fn plain_entry(key: SettingKey, text: &[u8]) -> Option<SettingEntry>
    requires { key ≢ SettingKey.SlurmUser }
    ensures { result ≡ setting_entry key text.now }
{
    match key {
        SettingKey::SlurmUser => None,
        SettingKey::FirstJobId => read_number(text).map(SettingEntry::FirstJobId),
        SettingKey::MaxJobCount => read_number(text).map(SettingEntry::MaxJobCount),
        SettingKey::MaxArraySize => read_number(text).map(SettingEntry::MaxArraySize),
        SettingKey::MinJobAge => read_number(text).map(SettingEntry::MinJobAge),
        SettingKey::SlurmdTimeout => read_number(text).map(SettingEntry::SlurmdTimeout),
        SettingKey::JobRequeue => read_requeue(text),
        SettingKey::PriorityType => only(text, &[b"priority/multifactor"]),
        SettingKey::PriorityDecayHalfLife => only(text, &[b"0"]),
        SettingKey::PriorityMaxAge => read_minutes(text).map(SettingEntry::MaxAge),
        SettingKey::WeightAge => read_u32(text).map(SettingEntry::WeightAge),
        SettingKey::WeightFairshare => read_u32(text).map(SettingEntry::WeightFairshare),
        SettingKey::WeightJobSize => read_u32(text).map(SettingEntry::WeightJobSize),
        SettingKey::WeightPartition => read_u32(text).map(SettingEntry::WeightPartition),
        SettingKey::WeightQos => read_u32(text).map(SettingEntry::WeightQos),
        SettingKey::SchedulerType => only(text, &[b"sched/backfill"]),
        SettingKey::SchedulerParameters => read_scheduler(text).map(SettingEntry::Plans),
        SettingKey::SelectType => only(text, &[b"select/cons_tres"]),
        SettingKey::SelectTypeParameters => read_select_parameters(text),
        SettingKey::PreemptType => read_preempt_type(text),
        SettingKey::PreemptMode => read_preempt_mode(text),
        SettingKey::DefMemPerNode => read_mem_per_node(text).map(SettingEntry::Mem),
        SettingKey::DefMemPerCpu => read_mem_per_cpu(text).map(SettingEntry::Mem),
        SettingKey::WithoutEffect => Some(SettingEntry::WithoutEffect),
    }
}

#[tactic(auto, unfolding(crate::specs::SettingLines::setting_entry))]
fn read_setting_entry(
    alloc: Global,
    key: SettingKey,
    text: &[u8],
) -> Result<SettingEntry, ValueRefusal>
    ensures value { IfOk result (λ entry. setting_entry key text.now ≡ Some entry) }
    ensures refused { IsErrOf result ValueRefusal.BadValue → setting_entry key text.now ≡ None }
{
    match key {
        SettingKey::SlurmUser => Ok(SettingEntry::SlurmUser(read_name(alloc, text)?)),
        _ => plain_entry(key, text).ok_or(ValueRefusal::BadValue),
    }
}

#[tactic(auto, unfolding(crate::specs::Words::entry_in, crate::specs::SettingLines::setting_word))]
fn read_setting_word(alloc: Global, word: &[u8]) -> Result<SettingEntry, Fault>
    ensures value { IfOk result (λ entry. setting_word word.now ≡ Ok entry) }
    ensures refused { (k : ConfKind) → IsErrOf result (Fault.Refused k) → setting_word word.now ≡ Err k }
{
    let Some(pair) = read_pair(word) else {
        return Err(Fault::Refused(ConfKind::BadPair));
    };
    let Some(key) = setting_key(pair.key) else {
        return Err(Fault::Refused(ConfKind::UnknownKey));
    };
    match read_setting_entry(alloc, key, pair.value) {
        Ok(entry) => Ok(entry),
        Err(ValueRefusal::BadValue) => Err(Fault::Refused(ConfKind::BadValue)),
        Err(ValueRefusal::Memory) => Err(Fault::Memory),
    }
}

impl SettingWords {
    ghost use Rattle.std.specs.Prelude.{ℕ, ◌≡◌, IfOk, OnOk, IsErrOf, Ok, Err};
    ghost use Rattle.conf_reader.specs.SettingLines.{with_setting, no_settings, setting_line, is_preempting, settings_of};
    ghost use Rattle.text_values.specs.declared.conf_refusal.ConfKind.{ConfKind};

    /// A file without lines of settings.
    #[tactic(auto, unfolding(crate::specs::SettingLines::no_settings))]
    pub fn new() -> SettingWords
        ensures { result ≡ no_settings }
    {
        SettingWords {
            first_job_id: None,
            max_job_count: None,
            max_array_size: None,
            min_job_age: None,
            slurmd_timeout: None,
            job_requeue: None,
            slurm_user: None,
            max_age: None,
            weight_age: None,
            weight_fairshare: None,
            weight_job_size: None,
            weight_partition: None,
            weight_qos: None,
            plans: Scheduler::new(),
            mem: None,
            by_qos: None,
            requeues: None,
        }
    }

    #[tactic(auto, unfolding(crate::specs::SettingLines::with_setting))]
    fn put(&mut self, entry: SettingEntry)
        ensures { self.new ≡ with_setting self.old entry }
    {
        match entry {
            SettingEntry::FirstJobId(id) => self.first_job_id = Some(id),
            SettingEntry::MaxJobCount(number) => self.max_job_count = Some(number),
            SettingEntry::MaxArraySize(number) => self.max_array_size = Some(number),
            SettingEntry::MinJobAge(seconds) => self.min_job_age = Some(seconds),
            SettingEntry::SlurmdTimeout(seconds) => self.slurmd_timeout = Some(seconds),
            SettingEntry::JobRequeue(yes) => self.job_requeue = Some(yes),
            SettingEntry::SlurmUser(name) => self.slurm_user = Some(name),
            SettingEntry::MaxAge(minutes) => self.max_age = Some(minutes),
            SettingEntry::WeightAge(weight) => self.weight_age = Some(weight),
            SettingEntry::WeightFairshare(weight) => self.weight_fairshare = Some(weight),
            SettingEntry::WeightJobSize(weight) => self.weight_job_size = Some(weight),
            SettingEntry::WeightPartition(weight) => self.weight_partition = Some(weight),
            SettingEntry::WeightQos(weight) => self.weight_qos = Some(weight),
            SettingEntry::Plans(plans) => self.plans = plans,
            SettingEntry::Mem(ask) => self.mem = Some(ask),
            SettingEntry::ByQos(yes) => self.by_qos = Some(yes),
            SettingEntry::Requeues(yes) => self.requeues = Some(yes),
            SettingEntry::WithoutEffect => {}
        }
    }

    // Whether the type and the mode both say that jobs are preempted.
    fn is_preempting(&self) -> bool
        ensures { result ≡ is_preempting self.now }
    {
        self.by_qos.unwrap_or(false) && self.requeues.unwrap_or(false)
    }

    /// The settings, with the defaults of what no line said.
    #[tactic(auto, unfolding(crate::specs::SettingLines::settings_of))]
    pub fn into_settings(self, alloc: Global) -> Result<Settings, Memory>
        ensures { IfOk result (λ settings. settings ≡ settings_of self) }
    {
        let preempt = self.is_preempting();
        let slurm_user = name_or_root(alloc, self.slurm_user)?;
        Ok(Settings {
            first_job_id: self.first_job_id.unwrap_or(Ranged::new(1)),
            max_job_count: self.max_job_count.unwrap_or(Ranged::new(10_000)),
            max_array_size: self.max_array_size.unwrap_or(Ranged::new(1_001)),
            min_job_age: self.min_job_age.unwrap_or(Ranged::new(300)),
            slurmd_timeout: self.slurmd_timeout.unwrap_or(Ranged::new(300)),
            job_requeue: self.job_requeue.unwrap_or(true),
            slurm_user,
            max_age: self.max_age.unwrap_or(Ranged::new(10_080)),
            weight_age: self.weight_age.unwrap_or(0),
            weight_fairshare: self.weight_fairshare.unwrap_or(0),
            weight_job_size: self.weight_job_size.unwrap_or(0),
            weight_partition: self.weight_partition.unwrap_or(0),
            weight_qos: self.weight_qos.unwrap_or(0),
            bf_window: self.plans.window.unwrap_or(Ranged::new(1_440)),
            bf_interval: self.plans.interval.unwrap_or(Ranged::new(30)),
            mem_default: self.mem,
            preempt,
        })
    }

    /// Takes up what the words of a line say. After an error the words are of no use.
    #[tactic(auto, using(crate::proofs::SaidLemmas::said_more, crate::proofs::SaidLemmas::said_bad, crate::proofs::SaidLemmas::said_all), unfolding(crate::specs::SettingLines::setting_line))]
    pub fn read_line(&mut self, alloc: Global, line: &[u8]) -> Result<(), Fault>
        ensures value { OnOk result (setting_line self.old line.now ≡ Ok self.new) }
        ensures refused { (k : ConfKind) → IsErrOf result (Fault.Refused k) → setting_line self.old line.now ≡ Err k }
    {
        let mut rest = line;
        while let Some((word, behind)) = first_word(rest) {
            match read_setting_word(alloc, word) {
                Ok(entry) => self.put(entry),
                Err(fault) => return Err(fault),
            }
            rest = behind;
        }
        Ok(())
    }
}

fn name_or_root(alloc: Global, name: Option<Name>) -> Result<Name, Memory>
    ensures { IfOk result (λ user. user ≡ unwrap_or name (codes "root")) }
{
    match name {
        Some(name) => Ok(name),
        None => Name::read(alloc, b"root").map_err(|_| Memory),
    }
}
