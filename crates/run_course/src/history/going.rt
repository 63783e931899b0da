//! Of each thread that is to do an action a job may be made. It has no code: each public function with an empty body carries a
//! law as its contract.
ghost use Rattle.std.specs.Prelude.{◌≡◌, ℕ, [], Some, slice_get};
ghost use Rattle.hs_base.specs.declared.mask.Mask.TheVariants.{Unmasked};
ghost use Rattle.local_steps.specs.Frames.{mask_inside};
ghost use Rattle.frame_stack.specs.Parts.{part_of};
ghost use Rattle.frame_stack.specs.Slicing.{IsDoing, MayGo};
ghost use Rattle.thread_table.specs.declared.thread.Thread.{Thread};
ghost use Rattle.thread_table.specs.Listing.{Goes};
ghost use Rattle.run_course.specs.declared.history.record.Record.{Record};

/// What a thread of a record is to do may be done alone, in its masking state. It is an action.
pub fn goers_may_have_jobs()
    ensures may { (r : Record) (t : ℕ) (th : Thread) → slice_get r.world.threads.list.items t ≡ Some th → Goes th → ∥ MayGo r.of.value (mask_inside Unmasked th.stack.frames) (part_of r.of.value th.stack.control) [] ∥₁ }
    ensures doing { (th : Thread) → Goes th → IsDoing th.stack.control }
{}
