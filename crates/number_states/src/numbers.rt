ghost use Rattle.std.specs.Prelude.{◌≡◌, ◌++◌, ◌∷◌, [], Some, IfOk, slice_get};
ghost use Rattle.std.specs.Option.{option_copied};
ghost use Rattle.rules_meaning.specs.Values.{value_of};
ghost use Rattle.term_graph.specs.tables.Numbered.{numbered};
ghost use Rattle.number_states.specs.Stocks.{stock, or_empty, text_at, HasGrown, IsValue};

use crate::held::{HeldExn, HeldText, HeldValue};
use hs_base::{Exn, NoMemory, Txt, Value};
use number_tables::Table;
use std::alloc::Global;
use std::marker::Model;
use term_graph::tables::Terms;

/// What the numbers of states stand for. There are at most 2^32 of each kind.
pub struct Numbers {
    pub terms: Terms,
    values: Table<HeldValue>,
    exceptions: Table<HeldExn>,
    texts: Table<HeldText>,
}

// Written out, so that it is proved once, here, and not in each function above that lets one go.
impl Drop for Numbers {
    fn drop(self) {
        let Numbers {
            terms: _,
            values: _,
            exceptions: _,
            texts: _,
        } = self;
    }
}

impl Model for Numbers {
    ghost use Rattle.std.specs.Prelude.{map};
    ghost use Rattle.std.specs.Coded.{codes};
    ghost use Rattle.hs_base.specs.contracts.value.Value as e;
    ghost use Rattle.number_states.specs.declared.held.HeldValue.{HeldValue};
    ghost use Rattle.number_states.specs.declared.held.HeldExn.{HeldExn};
    ghost use Rattle.number_states.specs.declared.held.HeldText.{HeldText};
    ghost use Rattle.number_states.specs.Stocks.{Stock, stock};

    ghost Value = { Stock };

    ghost coded = { Prim.hlevel (codes, e.the_row.coded) };

    ghost view = { λ n. stock n.terms (map (λ (h : HeldValue). h.value) n.values) (map (λ (h : HeldExn). h.exn) n.exceptions) (map (λ (h : HeldText). h.text) n.texts) };
}

/// A text, empty where there is none, with these bytes behind it.
fn joined(alloc: Global, text: Option<&Txt>, more: &str) -> Result<Txt, NoMemory>
    ensures { IfOk result (λ t. t ≡ or_empty (option_copied text.entry) ++ more.now) }
{
    let before = match text {
        Some(text) => text.as_str(),
        None => "",
    };
    Txt::from_string(format!(in alloc; "{before}{more}")?)
}

impl Numbers {
    /// The stack of no frames, and nothing else.
    pub fn new(alloc: Global) -> Numbers
        ensures { result ≡ stock (numbered ([] ∷ []) []) [] [] [] }
    {
        Numbers {
            terms: Terms::new(alloc),
            values: Table::new(alloc),
            exceptions: Table::new(alloc),
            texts: Table::new(alloc),
        }
    }

    /// The number of a value. Where memory runs out there may be more numbers than before.
    pub fn value(&mut self, alloc: Global, value: Value) -> Result<u32, NoMemory>
        ensures is { IfOk result (λ n. IsValue self.new n (value_of value)) }
        ensures grows { HasGrown self.old self.new }
    {
        self.values.number(alloc, HeldValue { value })
    }

    /// The number of an exception. Where memory runs out there may be more numbers than before.
    pub fn exception(&mut self, alloc: Global, exn: Exn) -> Result<u32, NoMemory>
        ensures is { IfOk result (λ n. slice_get self.new.exceptions n ≡ Some exn) }
        ensures grows { HasGrown self.old self.new }
    {
        self.exceptions.number(alloc, HeldExn { exn })
    }

    /// The number of a text. Where memory runs out there may be more numbers than before.
    pub fn text(&mut self, alloc: Global, text: Txt) -> Result<u32, NoMemory>
        ensures is { IfOk result (λ n. slice_get self.new.texts n ≡ Some text) }
        ensures grows { HasGrown self.old self.new }
    {
        self.texts.number(alloc, HeldText { text })
    }

    /// The number of the text of a number with these bytes behind it. Where memory runs out there may be more numbers than
    /// before.
    pub fn text_and(&mut self, alloc: Global, number: u32, more: &str) -> Result<u32, NoMemory>
        ensures is { IfOk result (λ n. slice_get self.new.texts n ≡ Some (text_at self.old number ++ more.now)) }
        ensures grows { HasGrown self.old self.new }
    {
        let text = joined(alloc, self.get_text(number), more)?;
        self.text(alloc, text)
    }

    /// The value of a number.
    pub fn get_value(&self, number: u32) -> Option<&Value>
        ensures { option_copied result ≡ slice_get self.now.values number }
    {
        match self.values.get(number) {
            None => None,
            Some(held) => Some(&held.value),
        }
    }

    /// The exception of a number.
    pub fn get_exception(&self, number: u32) -> Option<&Exn>
        ensures { option_copied result ≡ slice_get self.now.exceptions number }
    {
        match self.exceptions.get(number) {
            None => None,
            Some(held) => Some(&held.exn),
        }
    }

    /// The text of a number.
    pub fn get_text(&self, number: u32) -> Option<&Txt>
        ensures { option_copied result ≡ slice_get self.now.texts number }
    {
        match self.texts.get(number) {
            None => None,
            Some(held) => Some(&held.text),
        }
    }
}
