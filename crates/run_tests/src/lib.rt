//! Tests of public calls: runs, bundles, streams, the collector.
#![tactic(auto)]

#[cfg(test)]
mod collecting;
#[cfg(test)]
mod cut_bundles;
#[cfg(test)]
mod programs;
#[cfg(test)]
mod replays;
#[cfg(test)]
mod stream_calls;
#[cfg(test)]
mod working;
