//! What a stack is of a term with names.

ghost use Rattle.std.specs.Prelude.{◌≡◌, List, Option, length};
ghost use Rattle.hs_base.specs.declared.mask.Mask.TheVariants.{Unmasked};
ghost use Rattle.hs_base.specs.declared.exn.Exn.{Exn};
ghost use Rattle.rules_expansion.specs.trees.Programs.{Fn};
ghost use Rattle.rules_expansion.specs.declared.primitive.Primitive.{Primitive};
ghost use Rattle.rules_meaning.specs.Values.{V};
ghost use Rattle.rules_sorts.specs.Sorts.{Sort};
ghost use Rattle.rules_code.specs.declared.code.CodeBody.{CodeBody};
ghost use Rattle.hs_rules.specs.Terms as named;
ghost use Rattle.hs_rules.specs.Terms.{Ret, Throw, Performs, Calls, mask_at};
ghost use Rattle.hs_progress.specs.TypedStates.{Store};
ghost use Rattle.slot_laws.specs.SlotRules.{ret, throw, performs, calls};
ghost use Rattle.slot_laws.specs.Standing.{cells_of, PartStands, FramesStand};
ghost use Rattle.local_steps.specs.declared.active.Frame.{Frame};
ghost use Rattle.local_steps.specs.Frames.{mask_inside};
ghost use Rattle.local_steps.specs.Machine.{frames_of};
ghost use Rattle.frame_stack.specs.Laws.{StackRulesAreTermRules};

/// Where the frames of a stack stand for frames with names, they are as many, and the masking state inside them is the same.
/// Where its part stands for one with names, a value is that value, an exception that exception, a primitive with values
/// that primitive with those.
pub fn stacks_are_terms()
    ensures masks { (store : Option Store) (ds : List Fn) (k : Sort) (b : CodeBody) (fs : List Frame) (gs : List named.Frame) → FramesStand (cells_of store) ds k (frames_of b fs) gs → mask_inside Unmasked fs ≡ mask_at gs }
    ensures frames { (store : Option Store) (ds : List Fn) (k : Sort) (b : CodeBody) (fs : List Frame) (gs : List named.Frame) → FramesStand (cells_of store) ds k (frames_of b fs) gs → length fs ≡ length gs }
    ensures values { (store : Option Store) (ds : List Fn) (k : Sort) (v : V) (x : named.Part) → PartStands (cells_of store) ds (ret v) x k → x ≡ Ret v }
    ensures exceptions { (store : Option Store) (ds : List Fn) (k : Sort) (e : Exn) (x : named.Part) → PartStands (cells_of store) ds (throw e) x k → x ≡ Throw e }
    ensures primitives { (store : Option Store) (ds : List Fn) (k : Sort) (p : Primitive) (vs : List V) (x : named.Part) → PartStands (cells_of store) ds (performs (calls p vs)) x k → x ≡ Performs (Calls p vs) }
{}

/// Local rules of a stack are local rules of each term with names that it stands for, and it stands for the term after them.
pub fn stacks_move_as_terms()
    ensures { StackRulesAreTermRules }
{}
