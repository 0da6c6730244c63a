//! What the lines of a file say, as far as they are read.

ghost use Rattle.std.specs.Prelude.{ℕ, ◌≡◌, ◌≤◌, ◌<◌, ◌^◌, length, IfOk, OnOk, IsErrOf, Ok, Err};
ghost use Rattle.std.specs.Str.{is_utf8};
ghost use Rattle.conf_reader.specs.Reader.{kind_by_key, kind_of, after_node_line, after_part_line, after_kind};
ghost use Rattle.conf_reader.specs.Reader.{after_line, nothing_said};
ghost use Rattle.text_values.specs.declared.conf_refusal.ConfKind.{ConfKind};

use crate::node_lines::{NodeWords, read_node_line};
use crate::pairs::read_pair;
use crate::part_table::PartTable;
use crate::partition_lines::{PartLine, PartWords, read_part_line};
use crate::setting_lines::SettingWords;
use crate::words::first_word;
use plain_data::conf::NodeConf;
use plain_data::items::Items;
use small_texts::keywords::is_keyword;
use std::alloc::Global;
use text_values::conf_refusal::{ConfKind, Fault};
use text_values::node_table::NodeTable;

/// What lines say.
#[derive(Drop)]
pub(crate) struct Draft {
    pub(crate) settings: SettingWords,
    /// What DEFAULT lines say of the nodes after them.
    pub(crate) node_defaults: NodeWords,
    pub(crate) nodes: NodeTable,
    /// What DEFAULT lines say of the partitions after them.
    pub(crate) part_defaults: PartWords,
    pub(crate) partitions: PartTable,
}

/// What a line speaks of.
#[derive(Clone, Copy)]
pub(crate) enum LineKind {
    Settings,
    Node,
    Partition,
}

#[tactic(auto, using(crate::proofs::ReaderLemmas::good_text, crate::proofs::ReaderLemmas::bad_text))]
fn is_text(line: &[u8]) -> bool
    ensures { result ≡ is_utf8 line.now }
{
    match str::from_utf8(line) {
        Ok(_) => true,
        Err(_) => false,
    }
}

fn kind_by_key(key: &[u8]) -> LineKind
    ensures { result ≡ kind_by_key key.now }
{
    if is_keyword(key, b"NodeName") {
        LineKind::Node
    } else if is_keyword(key, b"PartitionName") {
        LineKind::Partition
    } else {
        LineKind::Settings
    }
}

// The kind of a line, by its first key.
#[tactic(auto, unfolding(crate::specs::Reader::kind_of))]
fn kind_of(line: &[u8]) -> LineKind
    ensures { result ≡ kind_of line.now }
{
    let Some((word, _)) = first_word(line) else {
        return LineKind::Settings;
    };
    match read_pair(word) {
        Some(pair) => kind_by_key(pair.key),
        None => LineKind::Settings,
    }
}

impl Draft {
    ghost use Rattle.std.specs.Prelude.{ℕ, ◌≡◌, ◌<◌, ◌^◌, length, OnOk, IsErrOf, Ok, Err};
    ghost use Rattle.conf_reader.specs.Reader.{nothing_said, after_node_line, after_part_line, after_kind, after_line};
    ghost use Rattle.conf_reader.specs.Reader.{with_nodes, with_partition};
    ghost use Rattle.conf_reader.specs.PartitionLines.{line_of};
    ghost use Rattle.text_values.specs.declared.conf_refusal.ConfKind.{ConfKind};
    ghost use Rattle.conf_reader.specs.declared.draft.LineKind.TheVariants.{Settings, Node, Partition};

    #[tactic(auto, unfolding(crate::specs::Reader::nothing_said))]
    pub(crate) fn new(alloc: Global) -> Draft
        ensures { result ≡ nothing_said }
    {
        Draft {
            settings: SettingWords::new(),
            node_defaults: NodeWords::new(),
            nodes: NodeTable::new(alloc),
            part_defaults: PartWords::new(),
            partitions: PartTable::new(alloc),
        }
    }

    /// What is kept of the lines once all are read.
    pub(crate) fn into_parts(self) -> (SettingWords, Items<NodeConf>, Vec<PartLine>)
        ensures settings { result.0 ≡ self.settings }
        ensures nodes { result.1 ≡ self.nodes }
        ensures partitions { result.2.items ≡ self.partitions }
    {
        (
            self.settings,
            self.nodes.into_items(),
            self.partitions.into_vec(),
        )
    }

    // Puts the nodes of a line behind the others.
    #[tactic(auto, unfolding(crate::specs::Reader::with_nodes))]
    fn add_nodes(&mut self, alloc: Global, words: &NodeWords) -> Result<(), Fault>
        ensures value { OnOk result (with_nodes self.old words.now ≡ Ok self.new) }
        ensures refused { (k : ConfKind) → IsErrOf result (Fault.Refused k) → with_nodes self.old words.now ≡ Err k }
    {
        let Some(cpus) = words.processors() else {
            return Err(Fault::Refused(ConfKind::OverLimit));
        };
        words.add_nodes(alloc, cpus, words.listed(), &mut self.nodes)?;
        Ok(())
    }

    #[tactic(auto, unfolding(crate::specs::Reader::after_node_line))]
    fn end_node_line(&mut self, alloc: Global, own: NodeWords) -> Result<(), Fault>
        ensures value { OnOk result (after_node_line self.old own ≡ Ok self.new) }
        ensures refused { (k : ConfKind) → IsErrOf result (Fault.Refused k) → after_node_line self.old own ≡ Err k }
    {
        let is_default = own.is_for_nodes();
        let words = own.over(&self.node_defaults)?;
        if is_default {
            self.node_defaults = words;
            return Ok(());
        }
        self.add_nodes(alloc, &words)
    }

    #[tactic(auto, unfolding(crate::specs::Reader::after_part_line))]
    fn end_part_line(&mut self, alloc: Global, number: u32, own: PartWords) -> Result<(), Fault>
        ensures value { OnOk result (after_part_line self.old number own ≡ Ok self.new) }
        ensures refused { (k : ConfKind)
            → IsErrOf result (Fault.Refused k) → after_part_line self.old number own ≡ Err k }
    {
        let is_default = own.is_for_partitions();
        let words = own.over(&self.part_defaults)?;
        if is_default {
            self.part_defaults = words;
            return Ok(());
        }
        self.add_partition(alloc, number, words)
    }

    // Puts the partition of a line behind the others.
    fn add_partition(&mut self, alloc: Global, number: u32, words: PartWords) -> Result<(), Fault>
        ensures value { OnOk result (with_partition self.old (line_of number words) ≡ Ok self.new) }
        ensures refused { (k : ConfKind)
            → IsErrOf result (Fault.Refused k) → with_partition self.old (line_of number words) ≡ Err k }
    {
        let Some(line) = words.into_line(alloc, number) else {
            return Err(Fault::Refused(ConfKind::BadValue));
        };
        self.partitions.push(line)?;
        Ok(())
    }

    fn read_settings(&mut self, alloc: Global, number: u32, line: &[u8]) -> Result<(), Fault>
        ensures value { OnOk result (after_kind Settings self.old number line.now ≡ Ok self.new) }
        ensures refused { (k : ConfKind)
            → IsErrOf result (Fault.Refused k) → after_kind Settings self.old number line.now ≡ Err k }
    {
        self.settings.read_line(alloc, line)
    }

    fn read_nodes(&mut self, alloc: Global, number: u32, line: &[u8]) -> Result<(), Fault>
        requires { length line.now < 2 ^ 32 }
        ensures value { OnOk result (after_kind Node self.old number line.now ≡ Ok self.new) }
        ensures refused { (k : ConfKind)
            → IsErrOf result (Fault.Refused k) → after_kind Node self.old number line.now ≡ Err k }
    {
        let own = read_node_line(alloc, &self.nodes, line)?;
        self.end_node_line(alloc, own)
    }

    fn read_partition(&mut self, alloc: Global, number: u32, line: &[u8]) -> Result<(), Fault>
        requires { length line.now < 2 ^ 32 }
        ensures value { OnOk result (after_kind Partition self.old number line.now ≡ Ok self.new) }
        ensures refused { (k : ConfKind)
            → IsErrOf result (Fault.Refused k) → after_kind Partition self.old number line.now ≡ Err k }
    {
        let own = read_part_line(alloc, self.partitions.as_slice(), line)?;
        self.end_part_line(alloc, number, own)
    }

    /// Takes up what a logical line says. After an error the draft is of no use.
    #[tactic(auto, unfolding(crate::specs::Reader::after_line))]
    pub(crate) fn read_line(&mut self, alloc: Global, number: u32, line: &[u8]) -> Result<(), Fault>
        requires { length line.now < 2 ^ 32 }
        ensures value { OnOk result (after_line self.old number line.now ≡ Ok self.new) }
        ensures refused { (k : ConfKind)
            → IsErrOf result (Fault.Refused k) → after_line self.old number line.now ≡ Err k }
    {
        if !is_text(line) {
            return Err(Fault::Refused(ConfKind::NotUtf8));
        }
        match kind_of(line) {
            LineKind::Settings => self.read_settings(alloc, number, line),
            LineKind::Node => self.read_nodes(alloc, number, line),
            LineKind::Partition => self.read_partition(alloc, number, line),
        }
    }
}
