ghost use Rattle.std.specs.Prelude.{◌<◌, ◌≤◌, []};
ghost use Rattle.frame_stack.specs.Parts.{part_of};
ghost use Rattle.frame_stack.specs.Slicing.{IsDoing, MayGo};

use crate::control::Control;
use hs_base::Mask;
use rules_code::CodeBody;
use std::snapshot::Snapshot;

/// Local rules to be done for a thread: those of an action, alone.
#[derive(Drop)]
pub struct Job {
    pub ticket: u64,
    pub tid: u32,
    pub start: Control,
    /// The masking state round the action.
    pub mask: Mask,
    /// So many rules at most, from 1 to 1,024.
    pub budget: u32,
    /// The code that it belongs to.
    pub of: Snapshot<CodeBody>,
    pub ghost doing: { ∥ IsDoing start ∥₁ },
    pub ghost may: { ∥ MayGo of.value mask (part_of of.value start) [] ∥₁ },
    pub ghost some: { 0 < budget },
    pub ghost few: { budget ≤ 1024 },
}
