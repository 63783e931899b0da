ghost use Rattle.std.specs.Prelude.{◌≡◌, ◌↔◌, IfOk, IsTrue};
ghost use Rattle.hs_base.specs.Held.{text_in, exn_in, list_in};
ghost use Rattle.hs_base.specs.Lists.{before, chain_of, SplitAs};
ghost use Rattle.hs_base.specs.declared.value.ValueList.{Nil};

use crate::exn::Exn;
use crate::mask::Mask;
use crate::no_memory::NoMemory;
use crate::text::Txt;
use hs_items::{Items, Shared};
use std::alloc::Global;

/// The values of an environment, the first bound first.
pub type Values = Items<Value>;

/// A value of a running script.
#[cycle(value)]
pub enum Value {
    Unit,
    Int(i64),
    Bool(bool),
    Text(Txt),
    Pair(Shared<Value>, Shared<Value>),
    Nothing,
    Just(Shared<Value>),
    Left(Shared<Value>),
    Right(Shared<Value>),
    List(ValueList),
    /// An `MVar`, by its number.
    Cell(u32),
    /// A `ThreadId`, by its number.
    Thread(u32),
    Exn(Exn),
    /// What a masking name stands for: the state that `restore` goes back to.
    Restore(Mask),
    /// The number of one use of `bracket`.
    Inst(u32),
}

// Written out, so that it is proved once, here, and not in each function above that lets one go.
impl Drop for Value {
    #[cycle(list_drop)]
    fn drop(self) {
        match self {
            Value::Unit => {}
            Value::Int(_) => {}
            Value::Bool(_) => {}
            Value::Text(_) => {}
            Value::Pair(_, _) => {}
            Value::Nothing => {}
            Value::Just(_) => {}
            Value::Left(_) => {}
            Value::Right(_) => {}
            Value::List(_) => {}
            Value::Cell(_) => {}
            Value::Thread(_) => {}
            Value::Exn(_) => {}
            Value::Restore(_) => {}
            Value::Inst(_) => {}
        }
    }
}

/// A list of a script, as cells that copies share: `:`, a copy and taking the first value off take constant time. Its
/// length is known only by a walk, and it is dropped by a loop.
#[cycle(value)]
pub enum ValueList {
    Nil,
    Cons(Shared<Head>),
}

/// The first value of a list, and the rest.
#[derive(Drop)]
#[cycle(value)]
pub struct Head {
    pub first: Value,
    pub rest: ValueList,
}

/// A list by its first value and the rest.
#[derive(Drop)]
pub enum Split<'a> {
    Empty,
    Of(&'a Value, ValueList),
}

// A loop, so that a long list does not run out of stack.
impl Drop for ValueList {
    #[cycle(list_drop)]
    fn drop(mut self) {
        loop {
            match self {
                ValueList::Nil => return,
                ValueList::Cons(head) => match head.into_inner() {
                    None => return,
                    Some(Head { first: _, rest }) => self = rest,
                },
            }
        }
    }
}

impl Value {
    /// The text that it is.
    pub fn into_text(self) -> Option<Txt>
        ensures { result ≡ text_in self }
    {
        match self {
            Value::Text(text) => Some(text),
            _ => None,
        }
    }

    /// The exception that it is.
    pub fn into_exn(self) -> Option<Exn>
        ensures { result ≡ exn_in self }
    {
        match self {
            Value::Exn(exn) => Some(exn),
            _ => None,
        }
    }

    /// The list that it is.
    pub fn into_list(self) -> Option<ValueList>
        ensures { result ≡ list_in self }
    {
        match self {
            Value::List(values) => Some(values),
            _ => None,
        }
    }

    /// An equal value, which shares its parts: it takes constant time and no memory but a count.
    pub fn copy(&self, alloc: Global) -> Result<Value, NoMemory>
        ensures { IfOk result (λ v. v ≡ self.now) }
    {
        match self {
            Value::Unit => Ok(Value::Unit),
            Value::Int(n) => Ok(Value::Int(*n)),
            Value::Bool(b) => Ok(Value::Bool(*b)),
            Value::Text(t) => Ok(Value::Text(t.copy(alloc)?)),
            Value::Pair(a, b) => Ok(Value::Pair(a.share()?, b.share()?)),
            Value::Nothing => Ok(Value::Nothing),
            Value::Just(a) => Ok(Value::Just(a.share()?)),
            Value::Left(a) => Ok(Value::Left(a.share()?)),
            Value::Right(a) => Ok(Value::Right(a.share()?)),
            Value::List(items) => Ok(Value::List(items.copy()?)),
            Value::Cell(n) => Ok(Value::Cell(*n)),
            Value::Thread(n) => Ok(Value::Thread(*n)),
            Value::Exn(e) => Ok(Value::Exn(e.copy(alloc)?)),
            Value::Restore(mask) => Ok(Value::Restore(*mask)),
            Value::Inst(n) => Ok(Value::Inst(*n)),
        }
    }
}

impl ValueList {
    /// The empty list.
    pub fn new() -> ValueList
        ensures { result ≡ Nil }
    {
        ValueList::Nil
    }

    /// An equal list, of the same cells.
    pub fn copy(&self) -> Result<ValueList, NoMemory>
        ensures { IfOk result (λ vs. vs ≡ self.now) }
    {
        match self {
            ValueList::Nil => Ok(ValueList::Nil),
            ValueList::Cons(head) => Ok(ValueList::Cons(head.share()?)),
        }
    }

    /// A value before a list.
    pub fn cons(alloc: Global, first: Value, rest: ValueList) -> Result<ValueList, NoMemory>
        ensures { IfOk result (λ vs. vs ≡ before first rest) }
    {
        let head = Shared::new(alloc, Head { first, rest })?;
        Ok(ValueList::Cons(head))
    }

    /// Whether no value is in it.
    pub fn is_empty(&self) -> bool
        ensures { IsTrue result ↔ (self.now ≡ Nil) }
    {
        match self {
            ValueList::Nil => true,
            ValueList::Cons(_) => false,
        }
    }

    /// The first value, and the rest, of the same cells.
    pub fn split(&self) -> Result<Split, NoMemory>
        ensures { IfOk result (SplitAs self.now) }
    {
        match self {
            ValueList::Nil => Ok(Split::Empty),
            ValueList::Cons(head) => {
                let head = head.get();
                Ok(Split::Of(&head.first, head.rest.copy()?))
            }
        }
    }

    /// The list of these values in that order, a cell for each.
    #[tactic(auto, using(crate::proofs::Chains::chains))]
    pub fn from_vec(alloc: Global, values: Vec<Value>) -> Result<ValueList, NoMemory>
        ensures { IfOk result (λ vs. vs ≡ chain_of values.items) }
    {
        let mut values = values;
        let mut list = ValueList::new();
        while let Some(value) = values.pop() {
            list = ValueList::cons(alloc, value, list)?;
        }
        Ok(list)
    }
}
