//! States in numbers at later times, and with one key.

ghost use Rattle.std.specs.Prelude.{◌≡◌};
ghost use Rattle.rules_code.specs.declared.code.CodeBody.{CodeBody};
ghost use Rattle.number_states.specs.declared.state.NumberState.{NumberState};
ghost use Rattle.number_states.specs.Stocks.{Stock, HasGrown, text_at};
ghost use Rattle.number_states.specs.States.{AreIn, contents, slots};
ghost use Rattle.number_states.specs.Keys.{state_key};

/// Where the tables have grown a state stands for the same, its numbers are still those of something, and its texts are the
/// same. Growth goes on.
pub fn growth_keeps_states()
    ensures slots { (g h : Stock) (x : NumberState) → AreIn g x → HasGrown g h → (b : CodeBody) → slots h b x ≡ slots g b x }
    ensures there { (g h : Stock) (x : NumberState) → AreIn g x → HasGrown g h → AreIn h x }
    ensures output { (g h : Stock) (x : NumberState) → AreIn g x → HasGrown g h → text_at h x.output ≡ text_at g x.output }
    ensures errors { (g h : Stock) (x : NumberState) → AreIn g x → HasGrown g h → text_at h x.errors ≡ text_at g x.errors }
    ensures same { (g : Stock) → HasGrown g g }
    ensures on { (f g h : Stock) → HasGrown f g → HasGrown g h → HasGrown f h }
{}

/// States with one key hold the same, and so stand for the same in every stock.
pub fn keys_are_exact()
    ensures { (x y : NumberState) → state_key x ≡ state_key y → contents x ≡ contents y }
{}
