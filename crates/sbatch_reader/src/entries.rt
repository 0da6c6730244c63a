//! What options say of a job.

ghost use Rattle.std.specs.Prelude.{◌≡◌, ◌&&◌, nat_lt, length, IfOk, IsErrOf, Some, None};
ghost use Rattle.sbatch_reader.specs.Entries.{flag_entry, value_entry, takes_text, entry_in};

use crate::array::read_array;
use crate::dependency::read_dependency;
use crate::features::read_features;
use crate::table::{FlagOption, ValueOption};
use crate::values::{
    NodeRange, read_job_name, read_mem_per_cpu, read_mem_per_node, read_node_range,
};
use plain_data::array::ArraySpec;
use plain_data::boxed::Boxed;
use plain_data::dependency::DepSpec;
use plain_data::features::FeatureExpr;
use plain_data::limit::Limit;
use plain_data::mem_ask::MemAsk;
use plain_data::nice::Nice;
use plain_data::ranged::Ranged;
use plain_data::seconds::Moment;
use small_texts::memory_error::Memory;
use small_texts::name::{JobName, Name};
use std::alloc::Global;
use text_values::names::read_name;
use text_values::nice::read_nice;
use text_values::node_names::NodeNames;
use text_values::nodes::read_few_nodes;
use text_values::numbers::read_number;
use text_values::refusal::ValueRefusal;
use text_values::times::{read_limit, read_moment};
use text_values::word_refusal::WordKind;

// How many bytes a text has at most.
const LONGEST_TEXT: usize = 1024;

/// What one option, or a line of the script, says.
#[derive(Drop)]
pub enum Entry {
    Account(Name),
    Partition(Name),
    Qos(Name),
    Reservation(Name),
    OwnName(JobName),
    Tasks(Ranged<1, 1048576>),
    CpusPerTask(Ranged<1, 1024>),
    TasksPerNode(Ranged<1, 1024>),
    Nodes(NodeRange),
    /// `--mem` and `--mem-per-cpu`, of which the later counts.
    Mem(MemAsk),
    Exclusive,
    TimeLimit(Limit),
    Begin(Moment),
    NiceValue(Nice),
    Hold,
    Parsable,
    /// `--requeue` and `--no-requeue`, of which the later counts.
    Requeue(bool),
    Features(Boxed<FeatureExpr>),
    Required(NodeNames),
    Excluded(NodeNames),
    Array(Boxed<ArraySpec>),
    Dependency(Boxed<DepSpec>),
    Wrap,
    /// How many seconds the script takes, and its exit code.
    Run(Ranged<1, 2000000000>, Ranged<0, 255>),
    WithoutEffect,
}

/// What options say together, of each kind the last.
#[derive(Drop)]
pub struct JobWords {
    pub name: Option<JobName>,
    pub account: Option<Name>,
    pub partition: Option<Name>,
    pub qos: Option<Name>,
    pub reservation: Option<Name>,
    pub tasks: Option<Ranged<1, 1048576>>,
    pub cpus_per_task: Ranged<1, 1024>,
    pub tasks_per_node: Option<Ranged<1, 1024>>,
    pub nodes: Option<NodeRange>,
    pub mem_ask: Option<MemAsk>,
    pub exclusive: bool,
    pub limit: Option<Limit>,
    pub begin: Option<Moment>,
    pub nice: Nice,
    pub held: bool,
    pub requeue: Option<bool>,
    pub features: Option<Boxed<FeatureExpr>>,
    pub required: NodeNames,
    pub excluded: NodeNames,
    pub array: Option<Boxed<ArraySpec>>,
    pub dependency: Option<Boxed<DepSpec>>,
    /// Whether a command stands for the script.
    pub wrap: bool,
    pub run: Ranged<1, 2000000000>,
    pub exit: Ranged<0, 255>,
    pub parsable: bool,
}

/// What an option without a value says.
pub fn flag_entry(option: FlagOption) -> Entry
    ensures { result ≡ flag_entry option }
{
    match option {
        FlagOption::Exclusive => Entry::Exclusive,
        FlagOption::Hold => Entry::Hold,
        FlagOption::Parsable => Entry::Parsable,
        FlagOption::Requeue => Entry::Requeue(true),
        FlagOption::NoRequeue => Entry::Requeue(false),
        FlagOption::Nice => Entry::NiceValue(Nice::Lower(Ranged::new(100))),
        FlagOption::WithoutEffect => Entry::WithoutEffect,
    }
}

// What an option says by its value.
#[tactic(auto, unfolding(crate::specs::Entries::value_entry))]
fn read_value(
    alloc: Global,
    option: ValueOption,
    text: &[u8],
    now: u64,
) -> Result<Entry, ValueRefusal>
    ensures value { IfOk result (λ entry. value_entry now option text.now ≡ Some entry) }
    ensures refused { IsErrOf result ValueRefusal.BadValue → value_entry now option text.now ≡ None }
{
    let bad = ValueRefusal::BadValue;
    match option {
        ValueOption::Account => Ok(Entry::Account(read_name(alloc, text)?)),
        ValueOption::Partition => Ok(Entry::Partition(read_name(alloc, text)?)),
        ValueOption::Qos => Ok(Entry::Qos(read_name(alloc, text)?)),
        ValueOption::Reservation => Ok(Entry::Reservation(read_name(alloc, text)?)),
        ValueOption::JobName => Ok(Entry::OwnName(read_job_name(alloc, text)?)),
        ValueOption::Tasks => Ok(Entry::Tasks(read_number(text).ok_or(bad)?)),
        ValueOption::CpusPerTask => Ok(Entry::CpusPerTask(read_number(text).ok_or(bad)?)),
        ValueOption::TasksPerNode => Ok(Entry::TasksPerNode(read_number(text).ok_or(bad)?)),
        ValueOption::Nodes => Ok(Entry::Nodes(read_node_range(text).ok_or(bad)?)),
        ValueOption::Mem => Ok(Entry::Mem(read_mem_per_node(text).ok_or(bad)?)),
        ValueOption::MemPerCpu => Ok(Entry::Mem(read_mem_per_cpu(text).ok_or(bad)?)),
        ValueOption::Limit => Ok(Entry::TimeLimit(read_limit(text).ok_or(bad)?)),
        ValueOption::Begin => Ok(Entry::Begin(read_moment(text, now).ok_or(bad)?)),
        ValueOption::Nice => Ok(Entry::NiceValue(read_nice(text).ok_or(bad)?)),
        ValueOption::Features => Ok(Entry::Features(Boxed::new(
            alloc,
            read_features(alloc, text)?,
        )?)),
        ValueOption::Required => Ok(Entry::Required(read_few_nodes(alloc, text)?)),
        ValueOption::Excluded => Ok(Entry::Excluded(read_few_nodes(alloc, text)?)),
        ValueOption::Array => Ok(Entry::Array(Boxed::new(alloc, read_array(alloc, text)?)?)),
        ValueOption::Dependency => Ok(Entry::Dependency(Boxed::new(
            alloc,
            read_dependency(alloc, text)?,
        )?)),
        ValueOption::Wrap => Ok(Entry::Wrap),
        ValueOption::WithoutEffect => Ok(Entry::WithoutEffect),
    }
}

fn takes_text(option: ValueOption) -> bool
    ensures { result ≡ takes_text option }
{
    matches!(option, ValueOption::Wrap | ValueOption::WithoutEffect)
}

/// What an option and its value say at the moment `now`, or what is wrong with the value.
#[tactic(auto, unfolding(crate::specs::Entries::entry_in))]
pub fn read_entry(
    alloc: Global,
    option: ValueOption,
    text: &[u8],
    now: u64,
) -> Result<Result<Entry, WordKind>, Memory>
    ensures { IfOk result (λ entry. entry ≡ entry_in now option text.now) }
{
    if takes_text(option) && text.len() > LONGEST_TEXT {
        return Ok(Err(WordKind::TooLong));
    }
    match read_value(alloc, option, text, now) {
        Ok(entry) => Ok(Ok(entry)),
        Err(ValueRefusal::BadValue) => Ok(Err(WordKind::BadValue)),
        Err(ValueRefusal::Memory) => Err(Memory),
    }
}

impl JobWords {
    ghost use Rattle.std.specs.Prelude.{◌≡◌};
    ghost use Rattle.sbatch_reader.specs.Entries.{with_entry, no_words};

    /// Nothing is said of the job.
    #[tactic(auto, unfolding(crate::specs::Entries::no_words))]
    pub fn new(alloc: Global) -> JobWords
        ensures { result ≡ no_words }
    {
        JobWords {
            name: None,
            account: None,
            partition: None,
            qos: None,
            reservation: None,
            tasks: None,
            cpus_per_task: Ranged::new(1),
            tasks_per_node: None,
            nodes: None,
            mem_ask: None,
            exclusive: false,
            limit: None,
            begin: None,
            nice: Nice::Lower(Ranged::new(0)),
            held: false,
            requeue: None,
            features: None,
            required: NodeNames::new(alloc),
            excluded: NodeNames::new(alloc),
            array: None,
            dependency: None,
            wrap: false,
            run: Ranged::new(60),
            exit: Ranged::new(0),
            parsable: false,
        }
    }

    /// Takes up what one option says.
    #[tactic(auto, unfolding(crate::specs::Entries::with_entry))]
    pub fn put(&mut self, entry: Entry)
        ensures { self.new ≡ with_entry self.old entry }
    {
        match entry {
            Entry::Account(name) => self.account = Some(name),
            Entry::Partition(name) => self.partition = Some(name),
            Entry::Qos(name) => self.qos = Some(name),
            Entry::Reservation(name) => self.reservation = Some(name),
            Entry::OwnName(name) => self.name = Some(name),
            Entry::Tasks(number) => self.tasks = Some(number),
            Entry::CpusPerTask(number) => self.cpus_per_task = number,
            Entry::TasksPerNode(number) => self.tasks_per_node = Some(number),
            Entry::Nodes(range) => self.nodes = Some(range),
            Entry::Mem(ask) => self.mem_ask = Some(ask),
            Entry::Exclusive => self.exclusive = true,
            Entry::TimeLimit(limit) => self.limit = Some(limit),
            Entry::Begin(moment) => self.begin = Some(moment),
            Entry::NiceValue(nice) => self.nice = nice,
            Entry::Hold => self.held = true,
            Entry::Parsable => self.parsable = true,
            Entry::Requeue(requeue) => self.requeue = Some(requeue),
            Entry::Features(features) => self.features = Some(features),
            Entry::Required(names) => self.required = names,
            Entry::Excluded(names) => self.excluded = names,
            Entry::Array(array) => self.array = Some(array),
            Entry::Dependency(dependency) => self.dependency = Some(dependency),
            Entry::Wrap => self.wrap = true,
            Entry::Run(seconds, exit) => {
                self.run = seconds;
                self.exit = exit;
            }
            Entry::WithoutEffect => {}
        }
    }
}
