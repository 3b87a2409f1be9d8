//! Tests of public calls: values, keys, tables of variables, aggregations.
#![tactic(auto)]

#[cfg(test)]
mod aggregates;
#[cfg(test)]
mod hashes;
#[cfg(test)]
mod keys;
#[cfg(test)]
mod numbers;
#[cfg(test)]
mod value_tables;
