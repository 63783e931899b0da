//! Operations that no cell answers.

ghost use Rattle.std.specs.Prelude.{◌+◌, [], ◌∷◌, ℕ, suc, pos, negsuc, min, List, length};
ghost use Rattle.hs_base.specs.declared.mask.Mask.TheVariants.{Unmasked};
ghost use Rattle.hs_base.specs.declared.exn.Exn.{Exn};
ghost use Rattle.hs_base.specs.declared.exn.Exn.TheVariants.{Timeout};
ghost use Rattle.hs_base.specs.declared.tree.script.Script.{Script};
ghost use Rattle.rules_meaning.specs.Values as val;
ghost use Rattle.rules_meaning.specs.Values.{UnitValue, Int, Text, Exception, Inst};
ghost use Rattle.rules_expansion.specs.declared.primitive.Primitive.TheVariants.{PutStr, PutStrLn, HPutStrLn, MyThreadId, GetMaskingState, ClockMicros, ThreadDelay, ThrowTo, NewTimeout, Acquired, Release};
ghost use Rattle.rules_typing.specs.TypingScripts.{Accepted};
ghost use Rattle.hs_rules.specs.Primitives.{masking_text};
ghost use Rattle.slot_laws.specs.SlotRules.{calls, mask_from};
ghost use Rattle.slot_states.specs.SlotStates.{SlotState, answer, prints, throws, sleeps};
ghost use Rattle.slot_states.specs.Premises.{OpEnters};
ghost use Rattle.slot_states.specs.OperationLaws.{MaskingIsAnswered, ForksAreEntered, UnmaskingForksAreEntered, ThrowsAtFinishedAreEntered, ThrowsAtOthersAreEntered};

/// Printing.
pub fn prints_are_entered()
    ensures text { (script : Script) → Accepted script → (x : SlotState) (t : ℕ) (b : List ℕ) → OpEnters script x t (calls PutStr (Text b ∷ [])) (prints t (length b) x) }
    ensures line { (script : Script) → Accepted script → (x : SlotState) (t : ℕ) (b : List ℕ) → OpEnters script x t (calls PutStrLn (Text b ∷ [])) (prints t (length b + 1) x) }
    ensures error_line { (script : Script) → Accepted script → (x : SlotState) (t : ℕ) (b : List ℕ) → OpEnters script x t (calls HPutStrLn (Text b ∷ [])) (prints t (length b + 1) x) }
{}

/// What a thread asks about itself, the clock, and the numbers of timeouts and of uses of `bracket`.
pub fn answers_are_entered()
    ensures my_thread { (script : Script) → Accepted script → (x : SlotState) (t : ℕ) → OpEnters script x t (calls MyThreadId []) (answer t (val.Thread t) x) }
    ensures masking { MaskingIsAnswered }
    ensures clock { (script : Script) → Accepted script → (x : SlotState) (t : ℕ) → OpEnters script x t (calls ClockMicros []) (answer t (Int (pos (min x.clock 9223372036854775807))) x) }
    ensures timeout { (script : Script) → Accepted script → (x : SlotState) (t : ℕ) → OpEnters script x t (calls NewTimeout []) (record (answer t (Exception (Timeout x.next_timeout)) x) { next_timeout = suc x.next_timeout }) }
    ensures acquired { (script : Script) → Accepted script → (x : SlotState) (t : ℕ) → OpEnters script x t (calls Acquired []) (record (answer t (Inst x.next_instance) x) { next_instance = suc x.next_instance }) }
    ensures release { (script : Script) → Accepted script → (x : SlotState) (t i : ℕ) → OpEnters script x t (calls Release (Inst i ∷ [])) (answer t UnitValue x) }
{}

/// Forks. The new thread begins in its parent's masking state.
pub fn forks_are_entered()
    ensures fork { ForksAreEntered }
    ensures unmasked { UnmaskingForksAreEntered }
{}

/// Sleeping, for more than no time or not.
pub fn delays_are_entered()
    ensures sleeps { (script : Script) → Accepted script → (x : SlotState) (t n : ℕ) → OpEnters script x t (calls ThreadDelay (Int (pos (suc n)) ∷ [])) (sleeps t (min (x.clock + suc n) 18446744073709551615) x) }
    ensures none { (script : Script) → Accepted script → (x : SlotState) (t : ℕ) → OpEnters script x t (calls ThreadDelay (Int (pos 0) ∷ [])) (answer t UnitValue x) }
    ensures less { (script : Script) → Accepted script → (x : SlotState) (t n : ℕ) → OpEnters script x t (calls ThreadDelay (Int (negsuc n) ∷ [])) (answer t UnitValue x) }
{}

/// Throwing: at oneself, at a thread that has finished, and at another. The target is there.
pub fn throws_are_entered()
    ensures itself { (script : Script) → Accepted script → (x : SlotState) (t : ℕ) (e : Exn) → OpEnters script x t (calls ThrowTo (val.Thread t ∷ Exception e ∷ [])) (throws t e x) }
    ensures finished { ThrowsAtFinishedAreEntered }
    ensures other { ThrowsAtOthersAreEntered }
{}
