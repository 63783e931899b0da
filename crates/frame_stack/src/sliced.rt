ghost use Rattle.std.specs.Prelude.{◌≡◌, ◌<◌, ◌≤◌};
ghost use Rattle.frame_stack.specs.Slicing.{IsDoing, Moves};

use crate::control::Control;
use hs_base::Mask;
use local_steps::Frames;
use rules_code::CodeBody;
use std::snapshot::Snapshot;

/// Local rules that were done for a thread: `steps` of them lead from `start`, where the masking state is `mask`, to `end` in
/// the frames `pushed`.
#[derive(Drop)]
pub struct Slice {
    pub ticket: u64,
    pub tid: u32,
    pub start: Control,
    pub mask: Mask,
    /// The frames that these rules put round the end, in the state `mask`.
    pub pushed: Frames,
    pub end: Control,
    /// From 1 to 1,024.
    pub steps: u32,
    /// The code that it belongs to.
    pub of: Snapshot<CodeBody>,
    pub ghost doing: { ∥ IsDoing start ∥₁ },
    pub ghost moves: { ∥ Moves of.value mask steps start end pushed.list ∥₁ },
    pub ghost under: { pushed.below ≡ mask },
    pub ghost some: { 0 < steps },
    pub ghost few: { steps ≤ 1024 },
}
