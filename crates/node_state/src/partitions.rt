//! The partitions.

ghost use Rattle.std.specs.Prelude.{◌≡◌, map, IfOk, option_copied};
ghost use Rattle.node_state.specs.Partitions as spec;

use crate::bounds::bounds_of;
use crate::nodes::Nodes;
use crate::partition_record::PartRecord;
use plain_data::conf::{PartConf, PartState};
use plain_data::items::Items;
use plain_data::job::JobDesc;
use small_texts::memory_error::Memory;
use small_texts::name::Name;
use std::alloc::Global;
use std::marker::Model;

/// The partitions of the cluster, 1 to 64, each named once. A contract sees the list of their records.
#[derive(Drop)]
pub struct Partitions {
    records: Vec<PartRecord>,
}

impl Model for Partitions {
    ghost use Rattle.std.specs.Prelude.{List};
    ghost use Rattle.node_state.specs.declared.partition_record.PartRecord.{PartRecord};
    ghost use Rattle.node_state.specs.Partitions.{ArePartitions};

    ghost Value = { List PartRecord };

    ghost view = { λ partitions. partitions.records.items };

    ghost invariant = { λ partitions. ArePartitions partitions.records.items };
}

// The places of the nodes with these names.
fn places_of(alloc: Global, nodes: &Nodes, names: &[Name]) -> Result<Vec<u32>, Memory>
    ensures { IfOk result (λ places. places.items ≡ spec.places_of nodes.now.records names.now) }
{
    let mut places = Vec::with_capacity(alloc, names.len())?;
    for name in names {
        if let Some(place) = nodes.find(name) {
            places.push(place)?;
        }
    }
    Ok(places)
}

fn opened(alloc: Global, nodes: &Nodes, conf: PartConf) -> Result<PartRecord, Memory>
    ensures { IfOk result (λ partition. partition ≡ spec.opened nodes.now.records conf) }
{
    let places = places_of(alloc, nodes, conf.nodes.as_slice())?;
    Ok(PartRecord {
        state: conf.state,
        nodes: Items::from_vec(places),
        conf,
    })
}

fn records_of(alloc: Global, nodes: &Nodes, confs: Vec<PartConf>) -> Result<Vec<PartRecord>, Memory>
    ensures { IfOk result (λ records. records.items ≡ map (spec.opened nodes.now.records) confs.items) }
{
    let mut records = Vec::with_capacity(alloc, confs.len())?;
    for conf in confs {
        records.push(opened(alloc, nodes, conf)?)?;
    }
    Ok(records)
}

fn place_meant(records: &[PartRecord], name: Option<&Name>) -> Option<usize>
    ensures { result ≡ spec.place_meant (option_copied name.entry) records.now }
{
    match name {
        Some(name) => records
            .iter()
            .position(|partition| partition.conf.name.is(name)),
        None => records
            .iter()
            .position(|partition| partition.conf.is_default),
    }
}

impl Partitions {
    ghost use Rattle.std.specs.Prelude.{◌≡◌, ◌≢◌, ◌↔◌, ◌<◌, ◌≤◌, true, false, map, length, All, AllPairs, IfOk, IfSome, IsFalse, slice_get, option_copied};
    ghost use Rattle.std.specs.List.{HoldsAt};
    ghost use Rattle.plain_data.specs.Confs.{IsOfNodes};
    ghost use Rattle.node_state.specs.Partitions.{ArePartitions, IsOnNodes};

    /// The partitions of slurm.conf(5) with these nodes. Linear in the names of nodes.
    pub fn build(alloc: Global, confs: Vec<PartConf>, nodes: &Nodes) -> Result<Partitions, Memory>
        requires some { 1 ≤ length confs.items }
        requires few { length confs.items ≤ 64 }
        requires once { AllPairs (λ one other. one.name ≢ other.name) confs.items }
        requires one_default { AllPairs (λ one other. one.is_default ≡ true → other.is_default ≡ false) confs.items }
        requires of_nodes { All (IsOfNodes (map (λ node. node.conf.name) nodes.now.records)) confs.items }
        ensures records { IfOk result (λ partitions. partitions ≡ map (spec.opened nodes.now.records) confs.items) }
        ensures on_nodes { IfOk result (λ partitions. All (IsOnNodes (length nodes.now.records)) partitions) }
    {
        let records = records_of(alloc, nodes, confs)?;
        Ok(Partitions { records })
    }

    /// The records of the partitions, in the order of slurm.conf(5).
    pub fn records(&self) -> &[PartRecord]
        ensures value { result.now ≡ self.now }
        ensures sound { ArePartitions self.now }
    {
        self.records.as_slice()
    }

    /// How many partitions there are.
    pub fn len(&self) -> u32
        ensures value { result ≡ length self.now }
        ensures some { 1 ≤ result }
        ensures few { result ≤ 64 }
    {
        self.records.len() as u32
    }

    /// The record of the partition at a place, counted from 0.
    pub fn at(&self, place: u32) -> Option<&PartRecord>
        ensures { option_copied result ≡ slice_get self.now place }
    {
        self.records.get(place as usize)
    }

    /// The place of the partition with this name, or of the default one. Linear in the partitions.
    pub fn find(&self, name: Option<&Name>) -> Option<u32>
        ensures value { result ≡ spec.place_meant (option_copied name.entry) self.now }
        ensures there { IfSome result (λ place. place < length self.now) }
    {
        let place = place_meant(self.records.as_slice(), name)?;
        Some(place as u32)
    }

    /// How many nodes the job may have in the partition at a place, at least and at most: None where no number will do.
    pub fn bounds(&self, place: u32, desc: &JobDesc) -> Option<(u32, u32)>
        requires { place < length self.now }
        ensures { HoldsAt (λ partition. result
            ≡ spec.bounds_of partition desc.now.tasks desc.now.min_nodes desc.now.max_nodes) self.now place }
    {
        let partition = &self.records[place as usize];
        bounds_of(partition, desc.tasks, desc.min_nodes, desc.max_nodes)
    }

    /// Sets the state of the partition at a place, and tells whether it was another one. It takes constant time, and no
    /// memory.
    pub fn set_state(&mut self, place: u32, state: PartState) -> bool
        requires { place < length self.old }
        ensures changed { self.new ≡ spec.in_state_at place state self.old }
        ensures same { IsFalse result ↔ (self.new ≡ self.old) }
    {
        let partition = &mut self.records[place as usize];
        let is_other = partition.state != state;
        partition.state = state;
        is_other
    }
}
