//! What has one key stands for the same.

ghost use Rattle.std.specs.Prelude.{◌≡◌};
ghost use Rattle.rules_code.specs.declared.code.CodeBody.{CodeBody};
ghost use Rattle.local_steps.specs.declared.active.Active.{Active};
ghost use Rattle.local_steps.specs.declared.active.Frame.{Frame};
ghost use Rattle.local_steps.specs.Machine.{active_of, frame_of};
ghost use Rattle.term_graph.specs.tables.Keys.{part_key, frame_key};

/// Parts with one key stand for the same in every code, and so do frames.
pub fn keys_are_exact()
    ensures parts { (x y : Active) → part_key x ≡ part_key y → (b : CodeBody) → active_of b x ≡ active_of b y }
    ensures frames { (x y : Frame) → frame_key x ≡ frame_key y → (b : CodeBody) → frame_of b x ≡ frame_of b y }
{}
