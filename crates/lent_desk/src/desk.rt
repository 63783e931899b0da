ghost use Rattle.std.specs.Prelude.{◌≡◌};
ghost use Rattle.std.proofs.Props.{props};

use crate::lent::LentAs;
use conc_world::Desk;
use hs_io::{Clock, Sink};
use std::marker::PhantomData;

/// A desk to which this was lent.
#[derive(Drop)]
pub struct LentDesk<O: Sink, E: Sink, K: Clock, N: LentAs> {
    /// In a box, since each visit of a turn moves it into a slot and out again, and a desk is large.
    pub(crate) desk: Box<Desk<O, E, K>>,
    pub(crate) named: PhantomData<N>,
    ghost output: { O.told desk.value.course.out_lent.value ≡ N.output } by { Prim.hlevel props },
    ghost errors: { E.told desk.value.course.err_lent.value ≡ N.errors } by { Prim.hlevel props },
    ghost last: { K.last desk.value.course.clocked.lent.value ≡ N.last },
}

impl<O: Sink, E: Sink, K: Clock, N: LentAs> LentDesk<O, E, K, N> {
    /// A desk, with a name for what it was lent.
    pub fn new(desk: Box<Desk<O, E, K>>) -> LentDesk<O, E, K, N>
        requires output { O.told desk.value.course.out_lent.value ≡ N.output }
        requires errors { E.told desk.value.course.err_lent.value ≡ N.errors }
        requires last { K.last desk.value.course.clocked.lent.value ≡ N.last }
        ensures { result.desk.value ≡ desk.value }
    {
        LentDesk {
            desk,
            named: PhantomData,
        }
    }

    /// The desk. It was lent what its type says.
    pub fn into_desk(self) -> Desk<O, E, K>
        ensures desk { result ≡ self.desk.value }
        ensures output { O.told result.course.out_lent.value ≡ N.output }
        ensures errors { E.told result.course.err_lent.value ≡ N.errors }
        ensures last { K.last result.course.clocked.lent.value ≡ N.last }
    {
        let LentDesk { desk, named: _ } = self;
        Box::into_inner(desk)
    }
}
