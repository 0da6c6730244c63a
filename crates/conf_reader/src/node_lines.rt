//! Lines of nodes.

ghost use Rattle.std.specs.Prelude.{ℕ, ◌≡◌, ◌≢◌, ◌≤◌, ◌<◌, ◌^◌, ◌*◌, [], ◌++◌, unwrap_or, length, map, IfOk, IfSome};
ghost use Rattle.std.specs.Prelude.{OnOk, IsErrOf, Some, None, Ok, Err};
ghost use Rattle.text_values.specs.Keys.{node_key};
ghost use Rattle.conf_reader.specs.NodeLines.{node_name, node_entry, names_fault, entry_fault, node_word, with_entry};
ghost use Rattle.conf_reader.specs.NodeLines.{no_node_words, node_line, few, few_times, processors, node_conf};
ghost use Rattle.plain_data.specs.Confs.{node_names};
ghost use Rattle.std.specs.Option.{option_or};
ghost use Rattle.host_lists.specs.Hosts.{has};
ghost use Rattle.conf_reader.specs.Words.{entry_in};
ghost use Rattle.std.specs.List.{list_any};
ghost use Rattle.text_values.specs.declared.conf_refusal.ConfKind.{ConfKind};

use crate::pairs::read_pair;
use crate::words::first_word;
use plain_data::conf::{NodeConf, NodeStart};
use plain_data::items::Items;
use plain_data::ranged::Ranged;
use small_texts::memory_error::Memory;
use small_texts::name::Name;
use std::alloc::Global;
use text_values::conf_lists::{copy_or_none, or_copy};
use text_values::conf_refusal::{ConfKind, Fault};
use text_values::keys::{NodeKey, node_key};
use text_values::names::read_names;
use text_values::node_table::NodeTable;
use text_values::nodes::read_nodes;
use text_values::numbers::read_number;
use text_values::refusal::ValueRefusal;
use text_values::values::read_node_start;

const MOST_NODES: usize = 1024;

const MOST_PROCESSORS: u64 = 1024;

/// Whom a line speaks of.
#[derive(Drop)]
pub enum NodeNames {
    /// The lines after it.
    Default,
    /// Nodes, by their names, each once, in the order of the line.
    Hosts(Items<Name>),
}

/// What one word of a line says.
#[derive(Drop)]
pub enum NodeEntry {
    Names(NodeNames),
    Cpus(Ranged<1, 1024>),
    Boards(Ranged<1, 4294967295>),
    /// Of a board.
    Sockets(Ranged<1, 4294967295>),
    /// Of a socket.
    Cores(Ranged<1, 4294967295>),
    /// Of a core.
    Threads(Ranged<1, 4294967295>),
    /// Megabytes.
    Mem(Ranged<1, 16777216>),
    Weight(Ranged<0, 4294967280>),
    Features(Items<Name>),
    State(NodeStart),
    /// A good value that says nothing.
    WithoutEffect,
}

/// What the words of a line say, by their keys; None where no word has the key.
#[derive(Drop)]
pub struct NodeWords {
    /// `NodeName`.
    pub names: Option<NodeNames>,
    /// `CPUs`: the processors of a node.
    pub cpus: Option<Ranged<1, 1024>>,
    /// `Boards`: how many a node has.
    pub boards: Option<Ranged<1, 4294967295>>,
    /// `Sockets`: how many a board has.
    pub sockets: Option<Ranged<1, 4294967295>>,
    /// `CoresPerSocket`.
    pub cores: Option<Ranged<1, 4294967295>>,
    /// `ThreadsPerCore`.
    pub threads: Option<Ranged<1, 4294967295>>,
    /// `RealMemory` of a node, in megabytes.
    pub mem: Option<Ranged<1, 16777216>>,
    /// `Weight`: nodes of a lower weight are taken first.
    pub weight: Option<Ranged<0, 4294967280>>,
    /// `Features`: the names of what a node has.
    pub features: Option<Items<Name>>,
    /// `State`: how a node begins.
    pub state: Option<NodeStart>,
}

#[tactic(auto, unfolding(crate::specs::NodeLines::node_name))]
fn read_node_name(alloc: Global, text: &[u8]) -> Result<NodeNames, ValueRefusal>
    requires { length text.now < 2 ^ 32 }
    ensures value { IfOk result (λ names. node_name text.now ≡ Some names) }
    ensures refused { IsErrOf result ValueRefusal.BadValue → node_name text.now ≡ None }
{
    if text == b"DEFAULT".as_slice() {
        return Ok(NodeNames::Default);
    }
    let names = read_nodes(alloc, text)?;
    Ok(NodeNames::Hosts(names))
}

// What a key and its value say, where that takes no memory.
#[tactic(auto, unfolding(crate::specs::NodeLines::node_entry))]
fn plain_entry(key: NodeKey, text: &[u8]) -> Option<NodeEntry>
    requires names { key ≢ NodeKey.NodeName }
    requires features { key ≢ NodeKey.Features }
    ensures { result ≡ node_entry key text.now }
{
    match key {
        NodeKey::NodeName | NodeKey::Features => None,
        NodeKey::Cpus => read_number(text).map(NodeEntry::Cpus),
        NodeKey::Boards => read_number(text).map(NodeEntry::Boards),
        NodeKey::Sockets => read_number(text).map(NodeEntry::Sockets),
        NodeKey::Cores => read_number(text).map(NodeEntry::Cores),
        NodeKey::Threads => read_number(text).map(NodeEntry::Threads),
        NodeKey::RealMemory => read_number(text).map(NodeEntry::Mem),
        NodeKey::Weight => read_number(text).map(NodeEntry::Weight),
        NodeKey::State => read_node_start(text).map(NodeEntry::State),
        NodeKey::WithoutEffect => Some(NodeEntry::WithoutEffect),
    }
}

#[tactic(auto, unfolding(crate::specs::NodeLines::node_entry))]
fn read_node_entry(alloc: Global, key: NodeKey, text: &[u8]) -> Result<NodeEntry, ValueRefusal>
    requires { length text.now < 2 ^ 32 }
    ensures value { IfOk result (λ entry. node_entry key text.now ≡ Some entry) }
    ensures refused { IsErrOf result ValueRefusal.BadValue → node_entry key text.now ≡ None }
{
    match key {
        NodeKey::NodeName => Ok(NodeEntry::Names(read_node_name(alloc, text)?)),
        NodeKey::Features => Ok(NodeEntry::Features(read_names(alloc, text)?)),
        _ => plain_entry(key, text).ok_or(ValueRefusal::BadValue),
    }
}

// What a word says by itself.
#[tactic(auto, unfolding(crate::specs::Words::entry_in))]
fn read_entry(alloc: Global, word: &[u8]) -> Result<NodeEntry, Fault>
    requires { length word.now < 2 ^ 32 }
    ensures value { IfOk result (λ entry. entry_in node_key node_entry word.now ≡ Ok entry) }
    ensures refused { (k : ConfKind)
        → IsErrOf result (Fault.Refused k) → entry_in node_key node_entry word.now ≡ Err k }
{
    let Some(pair) = read_pair(word) else {
        return Err(Fault::Refused(ConfKind::BadPair));
    };
    let Some(key) = node_key(pair.key) else {
        return Err(Fault::Refused(ConfKind::UnknownKey));
    };
    match read_node_entry(alloc, key, pair.value) {
        Ok(entry) => Ok(entry),
        Err(ValueRefusal::BadValue) => Err(Fault::Refused(ConfKind::BadValue)),
        Err(ValueRefusal::Memory) => Err(Fault::Memory),
    }
}

#[tactic(auto, unfolding(crate::specs::NodeLines::names_fault))]
fn names_fault(known: &NodeTable, names: &[Name]) -> Option<ConfKind>
    ensures { result ≡ names_fault (node_names known.now) names.now }
{
    if has_any(known, names) {
        Some(ConfKind::TwiceNamed)
    } else if known.len() > MOST_NODES || names.len() > MOST_NODES - known.len() {
        Some(ConfKind::OverLimit)
    } else {
        None
    }
}

#[tactic(auto, unfolding(crate::specs::NodeLines::entry_fault))]
fn entry_fault(known: &NodeTable, entry: &NodeEntry) -> Option<ConfKind>
    ensures { result ≡ entry_fault (node_names known.now) entry.now }
{
    match entry {
        NodeEntry::Names(NodeNames::Hosts(names)) => names_fault(known, names.as_slice()),
        _ => None,
    }
}

fn has_any(known: &NodeTable, names: &[Name]) -> bool
    ensures { result ≡ list_any (λ name. has name (node_names known.now)) names.now }
{
    names.iter().any(|name| known.has(name))
}

#[tactic(auto, unfolding(crate::specs::NodeLines::node_word))]
fn read_node_word(alloc: Global, known: &NodeTable, word: &[u8]) -> Result<NodeEntry, Fault>
    requires { length word.now < 2 ^ 32 }
    ensures value { IfOk result (λ entry. node_word (node_names known.now) word.now ≡ Ok entry) }
    ensures refused { (k : ConfKind)
        → IsErrOf result (Fault.Refused k) → node_word (node_names known.now) word.now ≡ Err k }
{
    let entry = read_entry(alloc, word)?;
    match entry_fault(known, &entry) {
        Some(kind) => Err(Fault::Refused(kind)),
        None => Ok(entry),
    }
}

impl NodeWords {
    ghost use Rattle.std.specs.Prelude.{◌≡◌};
    ghost use Rattle.conf_reader.specs.NodeLines.{with_entry, no_node_words};

    /// A line that says nothing.
    #[tactic(auto, unfolding(crate::specs::NodeLines::no_node_words))]
    pub fn new() -> NodeWords
        ensures { result ≡ no_node_words }
    {
        NodeWords {
            names: None,
            cpus: None,
            boards: None,
            sockets: None,
            cores: None,
            threads: None,
            mem: None,
            weight: None,
            features: None,
            state: None,
        }
    }

    #[tactic(auto, unfolding(crate::specs::NodeLines::with_entry))]
    fn put(&mut self, entry: NodeEntry)
        ensures { self.new ≡ with_entry self.old entry }
    {
        match entry {
            NodeEntry::Names(names) => self.names = Some(names),
            NodeEntry::Cpus(number) => self.cpus = Some(number),
            NodeEntry::Boards(number) => self.boards = Some(number),
            NodeEntry::Sockets(number) => self.sockets = Some(number),
            NodeEntry::Cores(number) => self.cores = Some(number),
            NodeEntry::Threads(number) => self.threads = Some(number),
            NodeEntry::Mem(megabytes) => self.mem = Some(megabytes),
            NodeEntry::Weight(number) => self.weight = Some(number),
            NodeEntry::Features(names) => self.features = Some(names),
            NodeEntry::State(start) => self.state = Some(start),
            NodeEntry::WithoutEffect => {}
        }
    }
}

/// What the words of a line say, where earlier lines named the nodes of `known`.
#[tactic(auto, using(crate::proofs::SaidLemmas::said_more, crate::proofs::SaidLemmas::said_bad, crate::proofs::SaidLemmas::said_all), unfolding(crate::specs::NodeLines::node_line))]
pub fn read_node_line(alloc: Global, known: &NodeTable, line: &[u8]) -> Result<NodeWords, Fault>
    requires { length line.now < 2 ^ 32 }
    ensures value { IfOk result (λ words. node_line (node_names known.now) line.now ≡ Ok words) }
    ensures refused { (k : ConfKind)
        → IsErrOf result (Fault.Refused k) → node_line (node_names known.now) line.now ≡ Err k }
{
    let mut words = NodeWords::new();
    let mut rest = line;
    while let Some((word, behind)) = first_word(rest) {
        match read_node_word(alloc, known, word) {
            Ok(entry) => words.put(entry),
            Err(fault) => return Err(fault),
        }
        rest = behind;
    }
    Ok(words)
}

impl NodeWords {
    ghost use Rattle.std.specs.Prelude.{◌≡◌, IfOk};
    ghost use Rattle.conf_reader.specs.NodeLines.{over, few, processors, node_conf};

    /// What this line says, before what DEFAULT lines said.
    #[tactic(auto, unfolding(crate::specs::NodeLines::over))]
    pub fn over(self, defaults: &NodeWords) -> Result<NodeWords, Memory>
        ensures { IfOk result (λ words. words ≡ over self defaults.now) }
    {
        let features = or_copy(self.features, &defaults.features)?;
        Ok(NodeWords {
            names: self.names,
            cpus: self.cpus.or(defaults.cpus),
            boards: self.boards.or(defaults.boards),
            sockets: self.sockets.or(defaults.sockets),
            cores: self.cores.or(defaults.cores),
            threads: self.threads.or(defaults.threads),
            mem: self.mem.or(defaults.mem),
            weight: self.weight.or(defaults.weight),
            features,
            state: self.state.or(defaults.state),
        })
    }

    /// The processors of a node, where they aren't too many.
    #[tactic(auto, unfolding(crate::specs::NodeLines::processors))]
    pub fn processors(&self) -> Option<Ranged<1, 1024>>
        ensures { result ≡ few (processors self.now) }
    {
        match self.cpus {
            Some(cpus) => Some(Ranged::new(cpus.get())),
            None => few_processors(
                one_or(self.boards),
                one_or(self.sockets),
                one_or(self.cores),
                one_or(self.threads),
            ),
        }
    }

    /// The node of this name.
    #[tactic(auto, unfolding(crate::specs::NodeLines::node_conf))]
    fn node(&self, alloc: Global, cpus: Ranged<1, 1024>, name: Name) -> Result<NodeConf, Memory>
        requires { cpus ≡ processors self.now }
        ensures { IfOk result (λ node. node ≡ node_conf self.now name) }
    {
        let features = copy_or_none(alloc, &self.features)?;
        Ok(NodeConf {
            name,
            cpus,
            mem: self.mem.unwrap_or(Ranged::new(1)),
            weight: self.weight.unwrap_or(Ranged::new(1)),
            features,
            state: self.state.unwrap_or(NodeStart::Unknown),
        })
    }

    /// Puts the nodes of a line behind others.
    pub fn add_nodes(
        &self,
        alloc: Global,
        cpus: Ranged<1, 1024>,
        names: &[Name],
        nodes: &mut NodeTable,
    ) -> Result<(), Memory>
        requires { cpus ≡ processors self.now }
        ensures { OnOk result (nodes.new ≡ nodes.old ++ map (node_conf self.now) names.now) }
    {
        for name in names {
            let node = self.node(alloc, cpus, name.copy()?)?;
            nodes.push(node)?;
        }
        Ok(())
    }
}

impl NodeWords {
    ghost use Rattle.std.specs.Prelude.{◌≡◌};
    ghost use Rattle.conf_reader.specs.NodeLines.{is_for_nodes, listed};

    /// Whether this line speaks of the lines after it.
    #[tactic(auto, unfolding(crate::specs::NodeLines::is_for_nodes))]
    pub fn is_for_nodes(&self) -> bool
        ensures { result ≡ is_for_nodes self.now.names }
    {
        matches!(self.names, Some(NodeNames::Default))
    }

    /// The nodes that this line names; none where it speaks of the lines after it.
    #[tactic(auto, unfolding(crate::specs::NodeLines::listed))]
    pub fn listed(&self) -> &[Name]
        ensures { result.now ≡ listed self.now.names }
    {
        match &self.names {
            Some(NodeNames::Hosts(names)) => names.as_slice(),
            _ => &[],
        }
    }
}

fn one_or(number: Option<Ranged<1, 4294967295>>) -> u64
    ensures value { result ≡ unwrap_or number 1 }
    ensures range { (1 ≤ result) × (result < 2 ^ 32) }
{
    match number {
        Some(number) => number.get(),
        None => 1,
    }
}

// The product, where it isn't too large.
#[tactic(auto, using(crate::proofs::ProductLemmas::products))]
fn few_processors(boards: u64, sockets: u64, cores: u64, threads: u64) -> Option<Ranged<1, 1024>>
    requires boards { (1 ≤ boards) × (boards < 2 ^ 32) }
    requires sockets { (1 ≤ sockets) × (sockets < 2 ^ 32) }
    requires cores { (1 ≤ cores) × (cores < 2 ^ 32) }
    requires threads { (1 ≤ threads) × (threads < 2 ^ 32) }
    ensures { result ≡ few (boards * sockets * cores * threads) }
{
    let product = few_times(few_times(few_times(Some(boards), sockets), cores), threads);
    match product {
        Some(number) => Some(Ranged::new(number)),
        None => None,
    }
}

fn few_times(number: Option<u64>, factor: u64) -> Option<u64>
    requires small { IfSome number (λ n. n < 2 ^ 32) }
    requires factor { factor < 2 ^ 32 }
    ensures value { result ≡ few_times number factor }
    ensures small { IfSome result (λ n. n ≤ 1024) }
{
    let number = number?;
    if number * factor <= MOST_PROCESSORS {
        Some(number * factor)
    } else {
        None
    }
}
