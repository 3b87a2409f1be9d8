//! What evaluations work on.

use crate::lanes::store::Store;
use firings::Firing;
use std::alloc::Global;

/// What an evaluation sees and changes: a firing, and the variables of a lane.
#[derive(Drop)]
pub struct State<'a, 's, S: Store> {
    pub(crate) alloc: Global,
    pub(crate) firing: &'a Firing<'a>,
    pub(crate) store: &'s mut S,
    ghost knows: { ∥ S.knows store.now firing.now ∥₁ },
}
