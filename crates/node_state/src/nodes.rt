//! The nodes, with an index of their names.

ghost use Rattle.std.specs.Prelude.{◌≡◌, ℕ, List, map, bytes_eq, IfOk};
ghost use Rattle.std.specs.HashMap.{get};
ghost use Rattle.node_state.specs.Held.{AreWithin, HoldsNothing};
ghost use Rattle.node_state.specs.Nodes.{AreNamedOnce, place_named};
ghost use Rattle.node_state.specs.Nodes as spec;

use crate::change;
use crate::record::{DroppedNode, Held, NodeChange, NodeRecord};
use crate::renewing::{held_for, records_for};
use crate::standing::{has_features, is_available, opened};
use plain_data::CpuIds;
use plain_data::conf::NodeConf;
use plain_data::features::FeatureExpr;
use small_texts::memory_error::Memory;
use small_texts::name::Name;
use std::alloc::Global;
use std::collections::HashMap;
use std::marker::Model;

/// The nodes of the cluster. A contract sees the records of them, and what is held of each, which is within the node.
#[derive(Drop)]
pub struct Nodes {
    records: Vec<NodeRecord>,
    places: HashMap<Name, u32>,
    held: Vec<Held>,
}

impl Model for Nodes {
    ghost use Rattle.std.specs.Prelude.{◌≡◌, ℕ, List, bytes_eq};
    ghost use Rattle.std.specs.HashMap.{get};
    ghost use Rattle.node_state.specs.Held.{AreWithin};
    ghost use Rattle.node_state.specs.Nodes.{NodesView, AreNamedOnce, place_named};

    ghost Value = { NodesView };

    ghost view = { λ nodes. record { records = nodes.records.items; held = nodes.held.items } };

    ghost invariant = { λ nodes. AreNamedOnce nodes.records.items × AreWithin nodes.records.items nodes.held.items
        × ((name : List ℕ) → get bytes_eq nodes.places name ≡ place_named name nodes.records.items) };
}

fn records_of(alloc: Global, confs: Vec<NodeConf>) -> Result<Vec<NodeRecord>, Memory>
    ensures { IfOk result (λ records. records.items ≡ map spec.opened confs.items) }
{
    Ok(confs.into_iter().map(opened).collect(alloc)?)
}

// The places of the nodes, by their names.
fn places_of(alloc: Global, records: &[NodeRecord]) -> Result<HashMap<Name, u32>, Memory>
    requires { AreNamedOnce records.now }
    ensures { IfOk result (λ places. (name : List ℕ) → get bytes_eq places name ≡ place_named name records.now) }
{
    let mut places = HashMap::with_capacity(alloc, records.len())?;
    for (place, node) in records.iter().enumerate() {
        places.insert(node.conf.name.copy()?, place as u32)?;
    }
    Ok(places)
}

// Nothing is held of any of the nodes.
fn nothing_held(alloc: Global, nodes: &[NodeRecord]) -> Result<Vec<Held>, Memory>
    ensures nothing { IfOk result (λ held. HoldsNothing held.items) }
    ensures within { IfOk result (λ held. AreWithin nodes.now held.items) }
{
    let mut held = Vec::with_capacity(alloc, nodes.len())?;
    for _node in nodes {
        held.push(Held {
            cpus: CpuIds::none(),
            mem: 0,
        })?;
    }
    Ok(held)
}

fn copy_records(alloc: Global, records: &[NodeRecord]) -> Result<Vec<NodeRecord>, Memory>
    ensures { IfOk result (λ copies. copies.items ≡ records.now) }
{
    let mut copies = Vec::with_capacity(alloc, records.len())?;
    for node in records {
        copies.push(node.copy()?)?;
    }
    Ok(copies)
}

fn copy_held(alloc: Global, held: &[Held]) -> Result<Vec<Held>, Memory>
    ensures { IfOk result (λ copies. copies.items ≡ held.now) }
{
    let mut copies = Vec::with_capacity(alloc, held.len())?;
    for one in held {
        copies.push(one.copy())?;
    }
    Ok(copies)
}

impl Nodes {
    ghost use Rattle.std.specs.Prelude.{◌≡◌, ◌≢◌, ◌↔◌, ◌<◌, ◌≤◌, ◌+◌, All, map, take, length, AllPairs, IfOk, IfSome, IsFalse, IsTrue, true, [], slice_get, option_copied};
    ghost use Rattle.std.specs.List.{HoldsAt};
    ghost use Rattle.node_state.specs.Held.{GivesBack, HoldsNothing, Takes, free_cpus, held_at, holds_cpu, held_mem, IsWithin};
    ghost use Rattle.node_state.specs.Nodes as spec;
    ghost use Rattle.node_state.specs.Renewing;

    /// The nodes of slurm.conf(5), before anything was heard of them. Linear in their number.
    pub fn build(alloc: Global, confs: Vec<NodeConf>) -> Result<Nodes, Memory>
        requires few { length confs.items ≤ 1024 }
        requires once { AllPairs (λ one other. one.name ≢ other.name) confs.items }
        ensures records { IfOk result (λ nodes. nodes.records ≡ map spec.opened confs.items) }
        ensures held { IfOk result (λ nodes. HoldsNothing nodes.held) }
    {
        let records = records_of(alloc, confs)?;
        let places = places_of(alloc, records.as_slice())?;
        let held = nothing_held(alloc, records.as_slice())?;
        Ok(Nodes {
            records,
            places,
            held,
        })
    }

    /// The nodes of another slurm.conf(5), matched by name with these: one that stays stands as it stood and keeps what
    /// is held of it, and of the others one that was heard and dropped counts as heard at this moment, and as down. Linear
    /// in the lines and in the dropped nodes.
    pub fn renewed(
        &self,
        alloc: Global,
        confs: Vec<NodeConf>,
        dropped: &[DroppedNode],
        moment: u64,
    ) -> Result<Nodes, Memory>
        requires few { length confs.items ≤ 1024 }
        requires once { AllPairs (λ one other. one.name ≢ other.name) confs.items }
        requires fits { All (Renewing.FitsHeld self.now) confs.items }
        ensures records { IfOk result (λ nodes. nodes.records
            ≡ map (Renewing.renewed self.now.records dropped.now moment) confs.items) }
        ensures held { IfOk result (λ nodes. nodes.held
            ≡ map (λ conf. Renewing.held_by_name self.now conf.name) confs.items) }
    {
        let held = held_for(alloc, self, confs.as_slice())?;
        let records = records_for(alloc, self, dropped, moment, confs)?;
        let places = places_of(alloc, records.as_slice())?;
        Ok(Nodes {
            records,
            places,
            held,
        })
    }

    /// Equal nodes, of which equal amounts are held. Linear in the nodes and what slurm.conf(5) says of each.
    pub fn copy(&self, alloc: Global) -> Result<Nodes, Memory>
        ensures { IfOk result (λ nodes. nodes ≡ self.now) }
    {
        let records = copy_records(alloc, self.records.as_slice())?;
        let places = places_of(alloc, records.as_slice())?;
        let held = copy_held(alloc, self.held.as_slice())?;
        Ok(Nodes {
            records,
            places,
            held,
        })
    }

    /// The records of the nodes, in the order of slurm.conf(5).
    pub fn records(&self) -> &[NodeRecord]
        ensures value { result.now ≡ self.now.records }
        ensures named { AreNamedOnce self.now.records }
    {
        self.records.as_slice()
    }

    /// How many nodes there are.
    pub fn len(&self) -> u32
        ensures value { result ≡ length self.now.records }
        ensures few { result ≤ 1024 }
    {
        self.records.len() as u32
    }

    /// Whether there are no nodes.
    pub fn is_empty(&self) -> bool
        ensures { IsTrue result ↔ (self.now.records ≡ []) }
    {
        self.records.is_empty()
    }

    /// The record of the node at a place, counted from 0.
    pub fn at(&self, place: u32) -> Option<&NodeRecord>
        ensures { option_copied result ≡ slice_get self.now.records place }
    {
        self.records.get(place as usize)
    }

    /// The place of the node with this name, in constant time.
    pub fn find(&self, name: &Name) -> Option<u32>
        ensures value { result ≡ place_named name.now self.now.records }
        ensures there { IfSome result (λ place. place < length self.now.records) }
    {
        self.places.get(name).copied()
    }

    /// Whether jobs may start on the node at a place.
    pub fn available(&self, place: u32) -> bool
        requires { place < length self.now.records }
        ensures { HoldsAt (λ node. result ≡ spec.is_available node) self.now.records place }
    {
        is_available(&self.records[place as usize])
    }

    /// Whether the node at a place has the features that a job wants.
    pub fn matches(&self, place: u32, features: &FeatureExpr) -> bool
        requires { place < length self.now.records }
        ensures { HoldsAt (λ node. result ≡ spec.has_features features.now node) self.now.records place }
    {
        has_features(&self.records[place as usize], features)
    }

    /// Changes the node at a place, and tells whether it is another one than before. It takes constant time, and no
    /// memory.
    pub fn set_state(&mut self, place: u32, change: NodeChange) -> bool
        requires { place < length self.old.records }
        ensures changed { self.new.records ≡ spec.change_at place change self.old.records }
        ensures same { IsFalse result ↔ (self.new.records ≡ self.old.records) }
        ensures held { self.new.held ≡ self.old.held }
    {
        change::apply(&mut self.records[place as usize], change)
    }

    /// What is held of the node at a place.
    pub fn held(&self, place: u32) -> &Held
        requires { place < length self.now.records }
        ensures value { result.now ≡ held_at self.now.held place }
        ensures within { HoldsAt (λ node. IsWithin node result.now) self.now.records place }
    {
        &self.held[place as usize]
    }

    /// Takes the lowest processors of the node at a place that aren't held: so many, which are there, and so much
    /// memory. Linear in the node's processors; it takes no memory.
    pub fn take_cpus(&mut self, place: u32, count: u32, mem: u64) -> CpuIds
        requires there { place < length self.old.records }
        requires cpus { HoldsAt (λ node. count ≤ length (free_cpus node (held_at self.old.held place)))
            self.old.records place }
        requires mem { HoldsAt (λ node. held_mem self.old.held place + mem ≤ node.conf.mem) self.old.records place }
        ensures lowest { HoldsAt (λ node. result ≡ take count (free_cpus node (held_at self.old.held place)))
            self.old.records place }
        ensures held { Takes self.old.held place result mem self.new.held }
        ensures records { self.new.records ≡ self.old.records }
    {
        let node = &self.records[place as usize];
        let (cpus, most) = (node.conf.cpus.get() as u32, node.conf.mem.get());
        let held = &mut self.held[place as usize];
        prove!(mem <= most);
        let taken = held.cpus.lowest_others(cpus, count);
        held.cpus.insert_all(&taken);
        held.mem += mem;
        taken
    }

    /// Gives back processors and memory of the node at a place, which are held. It takes constant time, and no memory.
    pub fn give_back(&mut self, place: u32, cpus: &CpuIds, mem: u64)
        requires there { place < length self.old.records }
        requires cpus { All (λ cpu. holds_cpu self.old.held place cpu ≡ true) cpus.now }
        requires mem { mem ≤ held_mem self.old.held place }
        ensures held { GivesBack self.old.held place cpus.now mem self.new.held }
        ensures records { self.new.records ≡ self.old.records }
    {
        let held = &mut self.held[place as usize];
        held.cpus.remove_all(cpus);
        held.mem -= mem;
    }
}
