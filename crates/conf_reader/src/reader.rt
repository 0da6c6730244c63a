//! A file, read line by line.

ghost use Rattle.std.specs.Prelude.{ℕ, ◌≡◌, ◌≤◌, ◌<◌, ◌^◌, ◌++◌, ◌&&◌, length, not, IfOk, IfSome, IsNone, IsErrOf, Ok};
ghost use Rattle.std.specs.Prelude.{Err, OnOk};
ghost use Rattle.std.specs.List.{list_any};
ghost use Rattle.conf_reader.specs.Lines.{logical_lines};
ghost use Rattle.plain_data.specs.Confs.{node_names, IsConf};
ghost use Rattle.conf_reader.specs.Reader.{after_lines, nothing_said, has_unknown, first_unknown, nodes_by};
ghost use Rattle.conf_reader.specs.Reader.{partitions_by, conf_of_lines, whole_file, conf_in};
ghost use Rattle.conf_reader.specs.SettingLines.{settings_of};
ghost use Rattle.conf_reader.specs.Sound.{IsSound};
ghost use Rattle.host_lists.specs.Hosts.{has};
ghost use Rattle.text_values.specs.declared.conf_refusal.ConfKind.{ConfKind};

use crate::draft::Draft;
use crate::lines::first_line;
use crate::partition_lines::{PartLine, PartNodes};
use crate::setting_lines::SettingWords;
use plain_data::conf::{Conf, NodeConf, PartConf};
use plain_data::items::Items;
use small_texts::memory_error::Memory;
use small_texts::name::Name;
use std::alloc::Global;
use text_values::conf_refusal::{ConfKind, ConfRefusal, Fault};
use text_values::node_table::NodeTable;

const LONGEST_FILE: usize = 1_048_576;

/// What a file slurm.conf(5) of at most 1,048,576 bytes says. An error names the first bad line; where each line is
/// good by itself, a partition's unknown node comes next, and then the want of a partition. It costs a few steps for
/// each byte, a look through the keys of its line's kind for each word, and for each name that an item of a host
/// expression makes a look through the names which that item made before. Beside what is kept only joined lines are
/// copied, and the names of a line, which are made before they are counted.
#[tactic(auto, unfolding(crate::specs::Reader::conf_in))]
pub fn read_conf(alloc: Global, file: &[u8]) -> Result<Conf, ConfRefusal>
    ensures value { IfOk result (λ conf. conf_in file.now ≡ Ok conf) }
    ensures refused { (line : ℕ) → (kind : ConfKind)
        → IsErrOf result (ConfRefusal.At line kind) → conf_in file.now ≡ Err (ConfRefusal.At line kind) }
{
    if file.len() > LONGEST_FILE {
        return Err(ConfRefusal::At {
            line: 0,
            kind: ConfKind::OverLimit,
        });
    }
    match read_lines(alloc, file) {
        Ok(draft) => end_file(alloc, draft),
        Err(refusal) => Err(refusal),
    }
}

#[tactic(auto, using(crate::proofs::ReaderLemmas::line_more, crate::proofs::ReaderLemmas::line_bad, crate::proofs::ReaderLemmas::no_lines))]
fn read_lines(alloc: Global, file: &[u8]) -> Result<Draft, ConfRefusal>
    requires { length file.now ≤ 1_048_576 }
    ensures value { IfOk result (λ draft. after_lines nothing_said (logical_lines file.now) ≡ Ok draft) }
    ensures refused { (line : ℕ) → (kind : ConfKind)
        → IsErrOf result (ConfRefusal.At line kind)
        → after_lines nothing_said (logical_lines file.now) ≡ Err (ConfRefusal.At line kind) }
{
    let mut draft = Draft::new(alloc);
    let mut rest = Some(file);
    let mut number = 1u32;
    while let Some(text) = rest {
        let first = first_line(alloc, text)?;
        match draft.read_line(alloc, number, first.text.as_bytes()) {
            Ok(()) => {}
            Err(Fault::Refused(kind)) => return Err(ConfRefusal::At { line: number, kind }),
            Err(Fault::Memory) => return Err(ConfRefusal::Memory),
        }
        number += first.taken as u32;
        rest = first.rest;
    }
    Ok(draft)
}

// What holds of the file as a whole.
#[tactic(auto, unfolding(crate::specs::Reader::conf_of_lines))]
fn end_file(alloc: Global, draft: Draft) -> Result<Conf, ConfRefusal>
    requires { IsSound draft }
    ensures value { IfOk result (λ conf. whole_file draft ≡ Ok conf) }
    ensures refused { (line : ℕ) → (kind : ConfKind)
        → IsErrOf result (ConfRefusal.At line kind) → whole_file draft ≡ Err (ConfRefusal.At line kind) }
{
    if let Some(refusal) = whole_refusal(&draft) {
        return Err(refusal);
    }
    let (settings, nodes, partitions) = draft.into_parts();
    let conf = make_conf(alloc, settings, nodes, partitions)?;
    Ok(conf)
}

// What lines make of which none is bad.
fn make_conf(
    alloc: Global,
    settings: SettingWords,
    nodes: Items<NodeConf>,
    lines: Vec<PartLine>,
) -> Result<Conf, Memory>
    requires { IsConf nodes (partitions_by (node_names nodes) lines.items) }
    ensures { IfOk result (λ conf. conf ≡ record {
      settings = settings_of settings;
      nodes = nodes;
      partitions = partitions_by (node_names nodes) lines.items;
    }) }
{
    let settings = settings.into_settings(alloc)?;
    let partitions = make_partitions(alloc, nodes.as_slice(), lines)?;
    Ok(Conf {
        settings,
        nodes,
        partitions,
    })
}

#[tactic(auto, unfolding(crate::specs::Reader::whole_file))]
fn whole_refusal(draft: &Draft) -> Option<ConfRefusal>
    ensures refused { IfSome result (λ refusal. whole_file draft.now ≡ Err refusal) }
    ensures good { IsNone result → whole_file draft.now ≡ Ok (conf_of_lines draft.now) }
{
    if let Some(line) = first_unknown(&draft.nodes, draft.partitions.as_slice()) {
        return Some(ConfRefusal::At {
            line,
            kind: ConfKind::UnknownNode,
        });
    }
    if draft.partitions.as_slice().is_empty() {
        return Some(ConfRefusal::At {
            line: 0,
            kind: ConfKind::NoPartition,
        });
    }
    None
}

#[tactic(auto, unfolding(crate::specs::Reader::has_unknown))]
fn has_unknown(known: &NodeTable, nodes: &PartNodes) -> bool
    ensures { result ≡ has_unknown (node_names known.now) nodes.now }
{
    match nodes {
        PartNodes::All => false,
        PartNodes::Listed(names) => lacks_any(known, names.as_slice()),
    }
}

fn lacks_any(known: &NodeTable, names: &[Name]) -> bool
    ensures { result ≡ list_any (λ name. not (has name (node_names known.now))) names.now }
{
    names.iter().any(|name| !known.has(name))
}

// The number of the first line with an unknown node.
#[tactic(auto, unfolding(crate::specs::Reader::first_unknown))]
fn first_unknown(known: &NodeTable, lines: &[PartLine]) -> Option<u32>
    ensures { result ≡ first_unknown (node_names known.now) lines.now }
{
    for line in lines {
        if has_unknown(known, &line.nodes) {
            return Some(line.number);
        }
    }
    None
}

fn copy_names(alloc: Global, nodes: &[NodeConf]) -> Result<Items<Name>, Memory>
    ensures { IfOk result (λ names. names ≡ node_names nodes.now) }
{
    let mut names = Vec::with_capacity(alloc, nodes.len())?;
    for node in nodes {
        names.push(node.name.copy()?)?;
    }
    Ok(Items::from_vec(names))
}

#[tactic(auto, unfolding(crate::specs::Reader::nodes_by))]
fn find_nodes(alloc: Global, known: &[NodeConf], nodes: PartNodes) -> Result<Items<Name>, Memory>
    ensures { IfOk result (λ names. names ≡ nodes_by (node_names known.now) nodes) }
{
    match nodes {
        PartNodes::All => copy_names(alloc, known),
        PartNodes::Listed(names) => Ok(names),
    }
}

fn has_default(lines: &[PartLine]) -> bool
    ensures { result ≡ list_any (λ line. line.conf.is_default) lines.now }
{
    lines.iter().any(|line| line.conf.is_default)
}

// A partition of a line, where these lines come later.
fn make_partition(
    alloc: Global,
    known: &[NodeConf],
    line: PartLine,
    later: &[PartLine],
) -> Result<PartConf, Memory>
    ensures { IfOk result (λ partition. partition ≡ record line.conf {
      nodes = nodes_by (node_names known.now) line.nodes;
      is_default = line.conf.is_default && not (list_any (λ other. other.conf.is_default) later.now);
    }) }
{
    let nodes = find_nodes(alloc, known, line.nodes)?;
    let mut conf = line.conf;
    conf.nodes = nodes;
    conf.is_default = conf.is_default && !has_default(later);
    Ok(conf)
}

// The partitions, of which there are few.
fn make_partitions(
    alloc: Global,
    known: &[NodeConf],
    lines: Vec<PartLine>,
) -> Result<Items<PartConf>, Memory>
    ensures { IfOk result (λ partitions. partitions ≡ partitions_by (node_names known.now) lines.items) }
{
    let mut lines = lines;
    let mut partitions = Vec::with_capacity(alloc, lines.len())?;
    while !lines.is_empty() {
        let line = lines.remove(0);
        let partition = make_partition(alloc, known, line, lines.as_slice())?;
        partitions.push(partition)?;
    }
    Ok(Items::from_vec(partitions))
}
