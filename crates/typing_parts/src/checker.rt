use crate::first::First;
use crate::table::Table;
use std::alloc::Global;

/// The scope of the place that is judged, and the first broken rule so far.
#[derive(Drop)]
pub struct Checker {
    pub alloc: Global,
    pub scope: Table,
    pub first: First,
}
