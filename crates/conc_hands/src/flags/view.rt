use rules_code::CodeBody;
use std::collections::LinkedList;
use std::snapshot::Snapshot;

/// What a load found. No value of it is made: contracts alone speak of it.
pub struct Reading {
    pub place: u64,
    pub found: u64,
}

/// What a pen knows. No value of it is made.
pub struct PenView {
    pub shares: u64,
    pub raised: LinkedList<u64>,
    pub read: LinkedList<Reading>,
}

/// What the flags are told once: how many hands there are, and the code of their tickets.
#[derive(Drop)]
pub struct FlagsKey {
    pub hands: u32,
    pub code: Snapshot<CodeBody>,
}
