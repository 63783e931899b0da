ghost use Rattle.std.specs.Prelude.{◌≡◌, ◌↔◌, IfOk, IsTrue};

use crate::no_memory::NoMemory;
use crate::pos::Pos;
use hs_items::Boxed;
use std::alloc::Global;

/// A type.
#[derive(Debug)]
pub enum Ty {
    /// `()`
    Unit,
    /// `Int`
    Int,
    /// `Bool`
    Bool,
    /// `Text`
    Text,
    /// `ThreadId`
    Thread,
    /// `SomeException`
    Exn,
    /// `(a, b)`
    Pair(Boxed<Ty>, Boxed<Ty>),
    /// `Maybe a`
    Maybe(Boxed<Ty>),
    /// `Either a b`
    Either(Boxed<Ty>, Boxed<Ty>),
    /// `[a]`
    List(Boxed<Ty>),
    /// `MVar a`
    Cell(Boxed<Ty>),
    /// `Async a`
    Async(Boxed<Ty>),
}

// Written out, so that it is proved once, here, and not in each function above that lets one go.
impl Drop for Ty {
    #[cycle(type_drop)]
    fn drop(self) {
        match self {
            Ty::Unit => {}
            Ty::Int => {}
            Ty::Bool => {}
            Ty::Text => {}
            Ty::Thread => {}
            Ty::Exn => {}
            Ty::Pair(_, _) => {}
            Ty::Maybe(_) => {}
            Ty::Either(_, _) => {}
            Ty::List(_) => {}
            Ty::Cell(_) => {}
            Ty::Async(_) => {}
        }
    }
}

/// A type as it is written in a script, at its first token.
#[derive(Debug, Drop)]
pub struct Written {
    pub ty: Ty,
    pub pos: Pos,
}

fn boxed(alloc: Global, ty: Ty) -> Result<Boxed<Ty>, NoMemory>
    ensures { IfOk result (λ b. b ≡ ty) }
{
    Ok(Boxed::new(alloc, ty)?)
}

impl Ty {
    /// An equal type.
    pub fn copy(&self, alloc: Global) -> Result<Ty, NoMemory>
        ensures { IfOk result (λ t. t ≡ self.now) }
    {
        match self {
            Ty::Unit => Ok(Ty::Unit),
            Ty::Int => Ok(Ty::Int),
            Ty::Bool => Ok(Ty::Bool),
            Ty::Text => Ok(Ty::Text),
            Ty::Thread => Ok(Ty::Thread),
            Ty::Exn => Ok(Ty::Exn),
            Ty::Pair(a, b) => Ok(Ty::Pair(
                boxed(alloc, a.get().copy(alloc)?)?,
                boxed(alloc, b.get().copy(alloc)?)?,
            )),
            Ty::Maybe(a) => Ok(Ty::Maybe(boxed(alloc, a.get().copy(alloc)?)?)),
            Ty::Either(a, b) => Ok(Ty::Either(
                boxed(alloc, a.get().copy(alloc)?)?,
                boxed(alloc, b.get().copy(alloc)?)?,
            )),
            Ty::List(a) => Ok(Ty::List(boxed(alloc, a.get().copy(alloc)?)?)),
            Ty::Cell(a) => Ok(Ty::Cell(boxed(alloc, a.get().copy(alloc)?)?)),
            Ty::Async(a) => Ok(Ty::Async(boxed(alloc, a.get().copy(alloc)?)?)),
        }
    }

    /// Whether the two types are the same.
    pub fn same(&self, other: &Ty) -> bool
        ensures { IsTrue result ↔ (self.now ≡ other.now) }
    {
        match (self, other) {
            (Ty::Unit, Ty::Unit) => true,
            (Ty::Int, Ty::Int) => true,
            (Ty::Bool, Ty::Bool) => true,
            (Ty::Text, Ty::Text) => true,
            (Ty::Thread, Ty::Thread) => true,
            (Ty::Exn, Ty::Exn) => true,
            (Ty::Pair(a, b), Ty::Pair(c, d)) => a.get().same(c.get()) && b.get().same(d.get()),
            (Ty::Maybe(a), Ty::Maybe(b)) => a.get().same(b.get()),
            (Ty::Either(a, b), Ty::Either(c, d)) => a.get().same(c.get()) && b.get().same(d.get()),
            (Ty::List(a), Ty::List(b)) => a.get().same(b.get()),
            (Ty::Cell(a), Ty::Cell(b)) => a.get().same(b.get()),
            (Ty::Async(a), Ty::Async(b)) => a.get().same(b.get()),
            (_, _) => false,
        }
    }
}
