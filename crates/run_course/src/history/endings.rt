//! How a history ends, by what can be done next. It has no code: each public function with an empty body carries a law as its
//! contract.
ghost use Rattle.std.specs.Prelude.{◌≡◌, ℕ, true, false};
ghost use Rattle.hs_rules.specs.Histories.{steps_of};
ghost use Rattle.hs_rules.specs.Endings.{Done, Uncaught, Deadlock, Fuel};
ghost use Rattle.run_course.specs.declared.history.record.Record.{Record};
ghost use Rattle.run_course.specs.declared.history.acts.NextEntry.{NextEntry};
ghost use Rattle.run_course.specs.declared.history.acts.Next.TheVariants as next;
ghost use Rattle.run_course.specs.history.Records.{IsNext, EndsAs};

/// Where main has finished the ending is Done or Uncaught; where nothing is legal but a Tick and nobody sleeps it is Deadlock;
/// and where something is legal, or somebody sleeps, and the steps are the fuel, it is Fuel.
pub fn histories_end()
    ensures done { (r : Record) → IsNext (next.Over true) r → EndsAs Done r }
    ensures uncaught { (r : Record) → IsNext (next.Over false) r → EndsAs Uncaught r }
    ensures deadlock { (r : Record) → IsNext next.Stuck r → EndsAs Deadlock r }
    ensures fuel_act { (r : Record) (a : NextEntry) → IsNext (next.Act a) r → steps_of r.history.list ≡ r.fuel → EndsAs Fuel r }
    ensures fuel_goes { (r : Record) → IsNext next.Goes r → steps_of r.history.list ≡ r.fuel → EndsAs Fuel r }
    ensures fuel_sleeps { (r : Record) → ((due : ℕ) × IsNext (next.Sleeps due) r) → steps_of r.history.list ≡ r.fuel → EndsAs Fuel r }
{}
