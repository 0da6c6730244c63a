//! The world of a cluster: its controller and the daemons of its nodes, over a network that loses, repeats and holds
//! back what they send one another. There are laws alone. A law is the contract of a function that does nothing.
#![tactic(auto)]

pub mod laws;
