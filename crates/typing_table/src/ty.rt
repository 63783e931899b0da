ghost use Rattle.std.specs.Prelude.{◌≡◌, IfOk};

use crate::base::Base;
use hs_base::NoMemory;
use hs_items::Boxed;
use std::alloc::Global;

/// A type of the checker.
#[derive(Debug)]
pub enum TypeTerm {
    Base(Base),
    /// `(a, b)`
    Pair(Boxed<TypeTerm>, Boxed<TypeTerm>),
    /// `Maybe a`
    Maybe(Boxed<TypeTerm>),
    /// `Either a b`
    Either(Boxed<TypeTerm>, Boxed<TypeTerm>),
    /// `[a]`
    List(Boxed<TypeTerm>),
    /// `MVar a`
    Cell(Boxed<TypeTerm>),
    /// `Async a`
    Async(Boxed<TypeTerm>),
    /// A type of the table, by its place.
    Known(usize),
}

// Written out, so that it is proved once, here, and not in each function above that lets one go.
impl Drop for TypeTerm {
    #[cycle(term_drop)]
    fn drop(self) {
        match self {
            TypeTerm::Base(_) => {}
            TypeTerm::Pair(_, _) => {}
            TypeTerm::Maybe(_) => {}
            TypeTerm::Either(_, _) => {}
            TypeTerm::List(_) => {}
            TypeTerm::Cell(_) => {}
            TypeTerm::Async(_) => {}
            TypeTerm::Known(_) => {}
        }
    }
}

impl TypeTerm {
    /// An equal type. It takes time in its size, where one of the table has size 1.
    #[cycle(copies)]
    pub fn copy(&self, alloc: Global) -> Result<TypeTerm, NoMemory>
        ensures { IfOk result (λ t. t ≡ self.now) }
    {
        match self {
            TypeTerm::Base(base) => Ok(TypeTerm::Base(*base)),
            TypeTerm::Pair(a, b) => {
                let a = boxed_copy(alloc, a.get())?;
                let b = boxed_copy(alloc, b.get())?;
                Ok(TypeTerm::Pair(a, b))
            }
            TypeTerm::Maybe(a) => maybe_of(alloc, a.get()),
            TypeTerm::Either(a, b) => {
                let a = boxed_copy(alloc, a.get())?;
                let b = boxed_copy(alloc, b.get())?;
                Ok(TypeTerm::Either(a, b))
            }
            TypeTerm::List(a) => list_of(alloc, a.get()),
            TypeTerm::Cell(a) => cell_of(alloc, a.get()),
            TypeTerm::Async(a) => async_of(alloc, a.get()),
            TypeTerm::Known(place) => Ok(TypeTerm::Known(*place)),
        }
    }
}

#[cycle(copies)]
fn boxed_copy(alloc: Global, t: &TypeTerm) -> Result<Boxed<TypeTerm>, NoMemory>
    ensures { IfOk result (λ b. b ≡ t.now) }
{
    let t = t.copy(alloc)?;
    Ok(Boxed::new(alloc, t)?)
}

/// `Maybe t`
#[cycle(copies)]
pub fn maybe_of(alloc: Global, t: &TypeTerm) -> Result<TypeTerm, NoMemory>
    ensures { IfOk result (λ b. b ≡ TypeTerm.Maybe t.now) }
{
    Ok(TypeTerm::Maybe(boxed_copy(alloc, t)?))
}

/// `[t]`
#[cycle(copies)]
pub fn list_of(alloc: Global, t: &TypeTerm) -> Result<TypeTerm, NoMemory>
    ensures { IfOk result (λ b. b ≡ TypeTerm.List t.now) }
{
    Ok(TypeTerm::List(boxed_copy(alloc, t)?))
}

/// `MVar t`
#[cycle(copies)]
pub fn cell_of(alloc: Global, t: &TypeTerm) -> Result<TypeTerm, NoMemory>
    ensures { IfOk result (λ b. b ≡ TypeTerm.Cell t.now) }
{
    Ok(TypeTerm::Cell(boxed_copy(alloc, t)?))
}

/// `Async t`
#[cycle(copies)]
pub fn async_of(alloc: Global, t: &TypeTerm) -> Result<TypeTerm, NoMemory>
    ensures { IfOk result (λ b. b ≡ TypeTerm.Async t.now) }
{
    Ok(TypeTerm::Async(boxed_copy(alloc, t)?))
}

/// `(s, t)`
pub fn pair_of(alloc: Global, s: &TypeTerm, t: &TypeTerm) -> Result<TypeTerm, NoMemory>
    ensures { IfOk result (λ b. b ≡ TypeTerm.Pair s.now t.now) }
{
    let s = boxed_copy(alloc, s)?;
    let t = boxed_copy(alloc, t)?;
    Ok(TypeTerm::Pair(s, t))
}

/// `Either s t`
pub fn either_of(alloc: Global, s: &TypeTerm, t: &TypeTerm) -> Result<TypeTerm, NoMemory>
    ensures { IfOk result (λ b. b ≡ TypeTerm.Either s.now t.now) }
{
    let s = boxed_copy(alloc, s)?;
    let t = boxed_copy(alloc, t)?;
    Ok(TypeTerm::Either(s, t))
}
