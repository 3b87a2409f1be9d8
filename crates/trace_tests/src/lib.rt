//! Tests of public calls: traces and the groups of their threads.
#![tactic(auto)]

#[cfg(test)]
mod blocks;
#[cfg(test)]
mod drawn_traces;
#[cfg(test)]
mod shards;
#[cfg(test)]
mod traces;
