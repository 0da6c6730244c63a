//! Tests of what only values of Rust show: the system's readers, writers and files as sources, sinks and a shelf, its
//! loopback network as a host, and doors, hosts and clocks in memory.
#![tactic(auto)]

#[cfg(test)]
mod adapters;
#[cfg(test)]
mod doors;
#[cfg(test)]
mod files;
#[cfg(test)]
mod loopback;
mod marks;
#[cfg(test)]
mod serving;
#[cfg(test)]
mod timed;
#[cfg(test)]
mod turns;
#[cfg(test)]
mod waiting;
