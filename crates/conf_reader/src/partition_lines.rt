//! Lines of partitions.

ghost use Rattle.std.specs.Prelude.{ℕ, ◌≡◌, ◌≢◌, ◌≤◌, ◌<◌, ◌^◌, if◌then◌else◌, codes, length, map, IfOk, IfSome, OnOk};
ghost use Rattle.std.specs.Prelude.{IsErrOf, Some, None, Ok, Err};
ghost use Rattle.std.specs.Option.{option_or};
ghost use Rattle.text_values.specs.Keys.{partition_key};
ghost use Rattle.text_values.specs.Tables.{is_word};
ghost use Rattle.conf_reader.specs.PartitionLines.{part_name, part_nodes, part_entry, partition_names, part_fault};
ghost use Rattle.conf_reader.specs.PartitionLines.{part_word, part_line};
ghost use Rattle.host_lists.specs.Hosts.{has};
ghost use Rattle.conf_reader.specs.Words.{entry_in};
ghost use Rattle.text_values.specs.declared.conf_refusal.ConfKind.{ConfKind};

use crate::pairs::read_pair;
use crate::words::first_word;
use plain_data::conf::{PartConf, PartState};
use plain_data::items::Items;
use plain_data::limit::Limit;
use plain_data::mem_ask::MemAsk;
use plain_data::ranged::Ranged;
use small_texts::keywords::is_keyword;
use small_texts::memory_error::Memory;
use small_texts::name::Name;
use std::alloc::Global;
use text_values::conf_lists::or_copy;
use text_values::conf_refusal::{ConfKind, Fault};
use text_values::keys::{PartitionKey, partition_key};
use text_values::names::read_name;
use text_values::nodes::read_nodes;
use text_values::numbers::{read_number, read_u32};
use text_values::refusal::ValueRefusal;
use text_values::states::read_part_state;
use text_values::times::read_limit;
use text_values::values::{
    read_allowed, read_exclusive, read_mem_per_cpu, read_mem_per_node, read_most_nodes,
    read_yes_or_no,
};

const MOST_PARTITIONS: usize = 64;

/// Whom a line speaks of.
#[derive(Drop)]
pub enum PartName {
    /// The lines after it.
    Default,
    /// The partition of this name.
    Named(Name),
}

/// The nodes of a partition.
#[derive(Drop)]
pub enum PartNodes {
    /// All of the file.
    All,
    /// These, by their names, each once, in the order of the line.
    Listed(Items<Name>),
}

/// What one word of a line says.
#[derive(Drop)]
pub enum PartEntry {
    Name(PartName),
    Nodes(PartNodes),
    /// Whether it is that of jobs which name none.
    IsDefault(bool),
    MaxTime(Limit),
    DefaultTime(Limit),
    State(PartState),
    Factor(Ranged<0, 65533>),
    Tier(Ranged<0, 65533>),
    MinNodes(u32),
    /// None is no limit.
    MaxNodes(Option<u32>),
    /// None is all.
    Accounts(Option<Items<Name>>),
    /// None is all.
    Qos(Option<Items<Name>>),
    Exclusive(bool),
    Mem(MemAsk),
    /// A good value that says nothing.
    WithoutEffect,
}

/// What the words of a line say, by their keys; None where no word has the key.
#[derive(Drop)]
pub struct PartWords {
    /// `PartitionName`.
    pub name: Option<PartName>,
    /// `Nodes`.
    pub nodes: Option<PartNodes>,
    /// `Default`: whether it is that of jobs which name none.
    pub is_default: Option<bool>,
    /// `MaxTime`: the longest limit that a job may have.
    pub max_time: Option<Limit>,
    /// `DefaultTime`: the limit of a job that names none.
    pub default_time: Option<Limit>,
    /// `State`: what it does with jobs.
    pub state: Option<PartState>,
    /// `PriorityJobFactor`.
    pub factor: Option<Ranged<0, 65533>>,
    /// `PriorityTier`: jobs of a higher tier come first.
    pub tier: Option<Ranged<0, 65533>>,
    /// `MinNodes`: how many nodes a job has at least.
    pub min_nodes: Option<u32>,
    /// `MaxNodes`: how many nodes a job has at most; None within is no limit.
    pub max_nodes: Option<Option<u32>>,
    /// `AllowAccounts`: the accounts whose jobs it takes; None within takes all.
    pub accounts: Option<Option<Items<Name>>>,
    /// `AllowQos`: the qualities of service of the jobs that it takes; None within takes all.
    pub qos: Option<Option<Items<Name>>>,
    /// `OverSubscribe`: whether each of its jobs has its nodes for itself.
    pub exclusive: Option<bool>,
    /// `DefMemPerNode` or `DefMemPerCPU`: the memory of a job that doesn't say.
    pub mem: Option<MemAsk>,
}

/// A partition as its line gives it: its nodes aren't looked up yet, and it says itself whether it is the default.
#[derive(Drop)]
pub struct PartLine {
    /// The number of its line, from 1 on.
    pub number: u32,
    /// Its nodes, which the file may lack.
    pub nodes: PartNodes,
    /// The partition, without its nodes.
    pub conf: PartConf,
}

#[tactic(auto, unfolding(crate::specs::PartitionLines::part_name))]
fn read_part_name(alloc: Global, text: &[u8]) -> Result<PartName, ValueRefusal>
    ensures value { IfOk result (λ name. part_name text.now ≡ Some name) }
    ensures refused { IsErrOf result ValueRefusal.BadValue → part_name text.now ≡ None }
{
    if text == b"DEFAULT".as_slice() {
        return Ok(PartName::Default);
    }
    let name = read_name(alloc, text)?;
    Ok(PartName::Named(name))
}

#[tactic(auto, unfolding(crate::specs::PartitionLines::part_nodes))]
fn read_part_nodes(alloc: Global, text: &[u8]) -> Result<PartNodes, ValueRefusal>
    requires { length text.now < 2 ^ 32 }
    ensures value { IfOk result (λ nodes. part_nodes text.now ≡ Some nodes) }
    ensures refused { IsErrOf result ValueRefusal.BadValue → part_nodes text.now ≡ None }
{
    if is_keyword(text, b"ALL") {
        return Ok(PartNodes::All);
    }
    let names = read_nodes(alloc, text)?;
    Ok(PartNodes::Listed(names))
}

// The only text that the key of groups takes, where it has no effect.
fn all_groups(text: &[u8]) -> Option<PartEntry>
    ensures { result ≡ if is_word (codes "ALL") text.now then Some PartEntry.WithoutEffect else None }
{
    if is_keyword(text, b"ALL") {
        Some(PartEntry::WithoutEffect)
    } else {
        None
    }
}

// What a key and its value say, where that takes no memory.
#[tactic(auto, unfolding(crate::specs::PartitionLines::part_entry))]
fn plain_entry(key: PartitionKey, text: &[u8]) -> Option<PartEntry>
    requires name { key ≢ PartitionKey.PartitionName }
    requires nodes { key ≢ PartitionKey.Nodes }
    requires accounts { key ≢ PartitionKey.AllowAccounts }
    requires qos { key ≢ PartitionKey.AllowQos }
    ensures { result ≡ part_entry key text.now }
{
    match key {
        PartitionKey::PartitionName
        | PartitionKey::Nodes
        | PartitionKey::AllowAccounts
        | PartitionKey::AllowQos => None,
        PartitionKey::Default => read_yes_or_no(text).map(PartEntry::IsDefault),
        PartitionKey::MaxTime => read_limit(text).map(PartEntry::MaxTime),
        PartitionKey::DefaultTime => read_limit(text).map(PartEntry::DefaultTime),
        PartitionKey::State => read_part_state(text).map(PartEntry::State),
        PartitionKey::JobFactor => read_number(text).map(PartEntry::Factor),
        PartitionKey::Tier => read_number(text).map(PartEntry::Tier),
        PartitionKey::MinNodes => read_u32(text).map(PartEntry::MinNodes),
        PartitionKey::MaxNodes => read_most_nodes(text).map(PartEntry::MaxNodes),
        PartitionKey::AllowGroups => all_groups(text),
        PartitionKey::OverSubscribe => read_exclusive(text).map(PartEntry::Exclusive),
        PartitionKey::DefMemPerNode => read_mem_per_node(text).map(PartEntry::Mem),
        PartitionKey::DefMemPerCpu => read_mem_per_cpu(text).map(PartEntry::Mem),
        PartitionKey::WithoutEffect => Some(PartEntry::WithoutEffect),
    }
}

#[tactic(auto, unfolding(crate::specs::PartitionLines::part_entry))]
fn read_part_entry(alloc: Global, key: PartitionKey, text: &[u8]) -> Result<PartEntry, ValueRefusal>
    requires { length text.now < 2 ^ 32 }
    ensures value { IfOk result (λ entry. part_entry key text.now ≡ Some entry) }
    ensures refused { IsErrOf result ValueRefusal.BadValue → part_entry key text.now ≡ None }
{
    match key {
        PartitionKey::PartitionName => Ok(PartEntry::Name(read_part_name(alloc, text)?)),
        PartitionKey::Nodes => Ok(PartEntry::Nodes(read_part_nodes(alloc, text)?)),
        PartitionKey::AllowAccounts => Ok(PartEntry::Accounts(read_allowed(alloc, text)?)),
        PartitionKey::AllowQos => Ok(PartEntry::Qos(read_allowed(alloc, text)?)),
        _ => plain_entry(key, text).ok_or(ValueRefusal::BadValue),
    }
}

// What a word says by itself.
#[tactic(auto, unfolding(crate::specs::Words::entry_in))]
fn read_entry(alloc: Global, word: &[u8]) -> Result<PartEntry, Fault>
    requires { length word.now < 2 ^ 32 }
    ensures value { IfOk result (λ entry. entry_in partition_key part_entry word.now ≡ Ok entry) }
    ensures refused { (k : ConfKind)
        → IsErrOf result (Fault.Refused k) → entry_in partition_key part_entry word.now ≡ Err k }
{
    let Some(pair) = read_pair(word) else {
        return Err(Fault::Refused(ConfKind::BadPair));
    };
    let Some(key) = partition_key(pair.key) else {
        return Err(Fault::Refused(ConfKind::UnknownKey));
    };
    match read_part_entry(alloc, key, pair.value) {
        Ok(entry) => Ok(entry),
        Err(ValueRefusal::BadValue) => Err(Fault::Refused(ConfKind::BadValue)),
        Err(ValueRefusal::Memory) => Err(Fault::Memory),
    }
}

fn has_partition(known: &[PartLine], name: &Name) -> bool
    ensures { result ≡ has name.now (partition_names known.now) }
{
    for line in known {
        if name.is(&line.conf.name) {
            return true;
        }
    }
    false
}

#[tactic(auto, unfolding(crate::specs::PartitionLines::part_fault))]
fn part_fault(known: &[PartLine], entry: &PartEntry) -> Option<ConfKind>
    ensures { result ≡ part_fault (partition_names known.now) entry.now }
{
    match entry {
        PartEntry::Name(PartName::Named(name)) => {
            if has_partition(known, name) {
                Some(ConfKind::TwiceNamed)
            } else if known.len() >= MOST_PARTITIONS {
                Some(ConfKind::OverLimit)
            } else {
                None
            }
        }
        _ => None,
    }
}

#[tactic(auto, unfolding(crate::specs::PartitionLines::part_word))]
fn read_part_word(alloc: Global, known: &[PartLine], word: &[u8]) -> Result<PartEntry, Fault>
    requires { length word.now < 2 ^ 32 }
    ensures value { IfOk result (λ entry. part_word (partition_names known.now) word.now ≡ Ok entry) }
    ensures refused { (k : ConfKind)
        → IsErrOf result (Fault.Refused k) → part_word (partition_names known.now) word.now ≡ Err k }
{
    let entry = read_entry(alloc, word)?;
    match part_fault(known, &entry) {
        Some(kind) => Err(Fault::Refused(kind)),
        None => Ok(entry),
    }
}

impl PartWords {
    ghost use Rattle.std.specs.Prelude.{◌≡◌, IfOk, IfSome, OnOk};
    ghost use Rattle.std.specs.Option.{option_or};
    ghost use Rattle.conf_reader.specs.PartitionLines.{with_part, no_part_words, over, part_conf, line_of};

    /// A line that says nothing.
    #[tactic(auto, unfolding(crate::specs::PartitionLines::no_part_words))]
    pub fn new() -> PartWords
        ensures { result ≡ no_part_words }
    {
        PartWords {
            name: None,
            nodes: None,
            is_default: None,
            max_time: None,
            default_time: None,
            state: None,
            factor: None,
            tier: None,
            min_nodes: None,
            max_nodes: None,
            accounts: None,
            qos: None,
            exclusive: None,
            mem: None,
        }
    }

    #[tactic(auto, unfolding(crate::specs::PartitionLines::with_part))]
    fn put(&mut self, entry: PartEntry)
        ensures { self.new ≡ with_part self.old entry }
    {
        match entry {
            PartEntry::Name(name) => self.name = Some(name),
            PartEntry::Nodes(nodes) => self.nodes = Some(nodes),
            PartEntry::IsDefault(yes) => self.is_default = Some(yes),
            PartEntry::MaxTime(limit) => self.max_time = Some(limit),
            PartEntry::DefaultTime(limit) => self.default_time = Some(limit),
            PartEntry::State(state) => self.state = Some(state),
            PartEntry::Factor(number) => self.factor = Some(number),
            PartEntry::Tier(number) => self.tier = Some(number),
            PartEntry::MinNodes(number) => self.min_nodes = Some(number),
            PartEntry::MaxNodes(number) => self.max_nodes = Some(number),
            PartEntry::Accounts(names) => self.accounts = Some(names),
            PartEntry::Qos(names) => self.qos = Some(names),
            PartEntry::Exclusive(yes) => self.exclusive = Some(yes),
            PartEntry::Mem(ask) => self.mem = Some(ask),
            PartEntry::WithoutEffect => {}
        }
    }

    /// What this line says, before what DEFAULT lines said.
    #[tactic(auto, unfolding(crate::specs::PartitionLines::over))]
    pub fn over(self, defaults: &PartWords) -> Result<PartWords, Memory>
        ensures { IfOk result (λ words. words ≡ over self defaults.now) }
    {
        let mut words = self;
        words.fill_lists(defaults)?;
        words.fill_values(defaults);
        Ok(words)
    }

    // Takes from DEFAULT lines what is a list.
    fn fill_lists(&mut self, defaults: &PartWords) -> Result<(), Memory>
        ensures { OnOk result (self.new ≡ record self.old {
          nodes = option_or self.old.nodes defaults.now.nodes;
          accounts = option_or self.old.accounts defaults.now.accounts;
          qos = option_or self.old.qos defaults.now.qos;
        }) }
    {
        fill_nodes(&mut self.nodes, &defaults.nodes)?;
        fill_allowed(&mut self.accounts, &defaults.accounts)?;
        fill_allowed(&mut self.qos, &defaults.qos)
    }

    // Takes from DEFAULT lines what is no list.
    fn fill_values(&mut self, defaults: &PartWords)
        ensures { self.new ≡ record self.old {
          is_default = option_or self.old.is_default defaults.now.is_default;
          max_time = option_or self.old.max_time defaults.now.max_time;
          default_time = option_or self.old.default_time defaults.now.default_time;
          state = option_or self.old.state defaults.now.state;
          factor = option_or self.old.factor defaults.now.factor;
          tier = option_or self.old.tier defaults.now.tier;
          min_nodes = option_or self.old.min_nodes defaults.now.min_nodes;
          max_nodes = option_or self.old.max_nodes defaults.now.max_nodes;
          exclusive = option_or self.old.exclusive defaults.now.exclusive;
          mem = option_or self.old.mem defaults.now.mem;
        } }
    {
        self.is_default = self.is_default.or(defaults.is_default);
        self.max_time = self.max_time.or(defaults.max_time);
        self.default_time = self.default_time.or(defaults.default_time);
        self.state = self.state.or(defaults.state);
        self.factor = self.factor.or(defaults.factor);
        self.tier = self.tier.or(defaults.tier);
        self.min_nodes = self.min_nodes.or(defaults.min_nodes);
        self.max_nodes = self.max_nodes.or(defaults.max_nodes);
        self.exclusive = self.exclusive.or(defaults.exclusive);
        self.mem = self.mem.or(defaults.mem);
    }

    /// The partition that these words of a line make; None without nodes.
    #[tactic(auto, unfolding(crate::specs::PartitionLines::line_of, crate::specs::PartitionLines::part_conf))]
    pub fn into_line(self, alloc: Global, number: u32) -> Option<PartLine>
        ensures { result ≡ line_of number self }
    {
        let mut words = self;
        match (words.name.take(), words.nodes.take()) {
            (Some(PartName::Named(name)), Some(nodes)) => Some(PartLine {
                number,
                nodes,
                conf: words.into_conf(alloc, name),
            }),
            _ => None,
        }
    }

    // The partition of this name, without its nodes.
    #[tactic(auto, unfolding(crate::specs::PartitionLines::part_conf))]
    fn into_conf(self, alloc: Global, name: Name) -> PartConf
        ensures { result ≡ part_conf self name }
    {
        PartConf {
            name,
            nodes: Items::from_vec(Vec::new(alloc)),
            is_default: self.is_default.unwrap_or(false),
            max_time: self.max_time.unwrap_or(Limit::Unlimited),
            default_time: self.default_time,
            state: self.state.unwrap_or(PartState::Up),
            factor: self.factor.unwrap_or(Ranged::new(1)),
            tier: self.tier.unwrap_or(Ranged::new(1)),
            min_nodes: self.min_nodes.unwrap_or(0),
            max_nodes: self.max_nodes.unwrap_or(None),
            accounts: self.accounts.unwrap_or(None),
            qos: self.qos.unwrap_or(None),
            exclusive: self.exclusive.unwrap_or(false),
            mem_default: self.mem,
        }
    }
}

impl PartWords {
    ghost use Rattle.std.specs.Prelude.{◌≡◌};
    ghost use Rattle.conf_reader.specs.PartitionLines.{is_for_partitions};

    /// Whether this line speaks of the lines after it.
    #[tactic(auto, unfolding(crate::specs::PartitionLines::is_for_partitions))]
    pub fn is_for_partitions(&self) -> bool
        ensures { result ≡ is_for_partitions self.now.name }
    {
        matches!(self.name, Some(PartName::Default))
    }
}

// Takes the nodes of DEFAULT lines, where a line gives none itself.
fn fill_nodes(own: &mut Option<PartNodes>, default: &Option<PartNodes>) -> Result<(), Memory>
    ensures { OnOk result (own.new ≡ option_or own.old default.now) }
{
    if own.is_none() {
        *own = copy_nodes(default)?;
    }
    Ok(())
}

fn copy_nodes(nodes: &Option<PartNodes>) -> Result<Option<PartNodes>, Memory>
    ensures { IfOk result (λ copy. copy ≡ nodes.now) }
{
    match nodes {
        Some(PartNodes::All) => Ok(Some(PartNodes::All)),
        Some(PartNodes::Listed(names)) => Ok(Some(PartNodes::Listed(names.copy()?))),
        None => Ok(None),
    }
}

// Takes what DEFAULT lines allow, where a line says nothing of it itself.
fn fill_allowed(
    own: &mut Option<Option<Items<Name>>>,
    default: &Option<Option<Items<Name>>>,
) -> Result<(), Memory>
    ensures { OnOk result (own.new ≡ option_or own.old default.now) }
{
    if own.is_none() {
        *own = copy_allowed(default)?;
    }
    Ok(())
}

fn copy_allowed(
    allowed: &Option<Option<Items<Name>>>,
) -> Result<Option<Option<Items<Name>>>, Memory>
    ensures { IfOk result (λ copy. copy ≡ allowed.now) }
{
    match allowed {
        Some(names) => Ok(Some(or_copy(None, names)?)),
        None => Ok(None),
    }
}

/// What the words of a line say, where earlier lines gave the partitions of `known`.
#[tactic(auto, using(crate::proofs::SaidLemmas::said_more, crate::proofs::SaidLemmas::said_bad, crate::proofs::SaidLemmas::said_all), unfolding(crate::specs::PartitionLines::part_line))]
pub fn read_part_line(alloc: Global, known: &[PartLine], line: &[u8]) -> Result<PartWords, Fault>
    requires { length line.now < 2 ^ 32 }
    ensures value { IfOk result (λ words. part_line (partition_names known.now) line.now ≡ Ok words) }
    ensures refused { (k : ConfKind)
        → IsErrOf result (Fault.Refused k) → part_line (partition_names known.now) line.now ≡ Err k }
{
    let mut words = PartWords::new();
    let mut rest = line;
    while let Some((word, behind)) = first_word(rest) {
        match read_part_word(alloc, known, word) {
            Ok(entry) => words.put(entry),
            Err(fault) => return Err(fault),
        }
        rest = behind;
    }
    Ok(words)
}
