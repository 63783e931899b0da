//! The calls on the flags.
ghost use Rattle.std.specs.Prelude.{◌≡◌, ◌≢◌, ◌%◌, ◌+◌, ◌<◌, [], ◌∷◌, ◌++◌, IfOk};
ghost use Rattle.rules_code.specs.Codes.{body_of};
ghost use Rattle.conc_hands.specs.flags.FlagsRule.{pen_view, reading, Among, OnlyRaised};
ghost use Rattle.conc_hands.specs.flags.Pens.{IsPenOf, view_of, flags_hands, flags_code};

use crate::flags::flags::Flags;
use crate::flags::pen::Pen;
use crate::flags::rule::{AddUp, GiveAll, GiveOne, Raise, Read};
use crate::flags::view::FlagsKey;
use atomic_table::Table;
use hs_base::NoMemory;
use rules_code::CodeBody;
use std::alloc::Global;
use std::snapshot::Snapshot;

impl Flags {
    /// The flags of so many hands and of tickets of this code, and a pen with a share for each hand.
    pub fn new(alloc: Global, hands: u32, code: &CodeBody) -> Result<(Flags, Pen), NoMemory>
        requires { 0 < hands }
        ensures flags { IfOk result (λ f. (flags_hands f.0 ≡ hands) × (flags_code f.0 ≡ code.now)) }
        ensures pen { IfOk result (λ f. IsPenOf f.0 f.1 × (view_of f.1 ≡ pen_view hands [] [])) }
    {
        let key = FlagsKey {
            hands,
            code: Snapshot::of(code),
        };
        let (table, seat) = Table::of_words(alloc, &[0; 64], &key)?;
        Ok((Flags { table }, Pen { seat }))
    }

    /// Stores the ticket in word `ticket mod 64`. Takes no memory and doesn't wait.
    pub fn raise(&self, pen: &mut Pen, ticket: u64)
        requires { IsPenOf self.now pen.old }
        ensures pen { IsPenOf self.now pen.new }
        ensures raised { let v = view_of pen.old in view_of pen.new ≡ pen_view v.shares (v.raised ++ ticket ∷ []) v.read }
    {
        self.table
            .shared
            .store::<Raise>(&mut pen.seat, (ticket % 64) as usize, ticket);
    }

    /// Loads word `ticket mod 64`. Takes no memory and doesn't wait.
    pub fn raised(&self, pen: &mut Pen, ticket: u64) -> u64
        requires { IsPenOf self.now pen.old }
        ensures pen { IsPenOf self.now pen.new }
        ensures read { let v = view_of pen.old in view_of pen.new ≡ pen_view v.shares v.raised (v.read ++ reading (ticket % 64) result ∷ []) }
    {
        self.table
            .shared
            .load::<Read>(&mut pen.seat, (ticket % 64) as usize)
    }

    /// Gives one share to a new pen, which has raised and read nothing. Takes no memory and doesn't wait.
    pub fn another(&self, pen: &mut Pen) -> Pen
        requires { IsPenOf self.now pen.old × (1 < (view_of pen.old).shares) }
        ensures pen { let v = view_of pen.old in IsPenOf self.now pen.new × ((view_of pen.new).shares + 1 ≡ v.shares) × ((view_of pen.new).raised ≡ v.raised) × ((view_of pen.new).read ≡ v.read) }
        ensures new { IsPenOf self.now result × (view_of result ≡ pen_view 1 [] []) }
    {
        let seat = self.table.shared.split_seat::<GiveOne>(&mut pen.seat);
        Pen { seat }
    }

    /// Moves all that a pen has to a new pen. Takes no memory and doesn't wait.
    pub fn moved(&self, pen: &mut Pen) -> Pen
        requires { IsPenOf self.now pen.old }
        ensures { IsPenOf self.now result × (view_of result ≡ view_of pen.old) }
    {
        let seat = self.table.shared.split_seat::<GiveAll>(&mut pen.seat);
        Pen { seat }
    }

    /// Takes in the shares and the lists of another pen. Takes no memory and doesn't wait.
    pub fn absorb(&self, pen: &mut Pen, other: Pen)
        requires { IsPenOf self.now pen.old × IsPenOf self.now other }
        ensures pen { IsPenOf self.now pen.new }
        ensures sums { let v = view_of pen.old in let w = view_of other in view_of pen.new ≡ pen_view (v.shares + w.shares) (v.raised ++ w.raised) (v.read ++ w.read) }
    {
        let Pen { seat } = other;
        self.table.shared.join_seat::<AddUp>(&mut pen.seat, seat);
    }

    /// Ends the flags, with a pen that has all shares: what was read was raised.
    pub fn close(self, pen: Pen)
        requires pen { IsPenOf self pen }
        requires all { (view_of pen).shares ≡ flags_hands self }
        ensures { OnlyRaised (view_of pen).raised (view_of pen).read }
    {
        let Flags { table } = self;
        let Pen { seat } = pen;
        table.close_with(seat).free();
    }
}
