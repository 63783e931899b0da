//! Values, exceptions and texts that a table finds by their keys.
use hs_base::{Exn, NoMemory, Txt, Value};
use number_tables::Keyed;
use number_tables::value_keys::{put_exn, put_value};
use std::alloc::Global;

/// A value by number.
#[derive(Drop)]
pub struct HeldValue {
    pub value: Value,
}

impl Keyed for HeldValue {
    ghost use Rattle.rules_meaning.specs.Values.{value_of};
    ghost use Rattle.number_tables.specs.value_keys.Keys.{value_key};

    ghost key = { λ h. value_key (value_of h.value) };

    fn put_key(&self, _alloc: Global, out: &mut Vec<u32>) -> Result<(), NoMemory> {
        put_value(&self.value, out)
    }
}

/// An exception by number.
#[derive(Drop)]
pub struct HeldExn {
    pub exn: Exn,
}

impl Keyed for HeldExn {
    ghost use Rattle.number_tables.specs.value_keys.Keys.{exn_key};

    ghost key = { λ h. exn_key h.exn };

    fn put_key(&self, _alloc: Global, out: &mut Vec<u32>) -> Result<(), NoMemory> {
        put_exn(&self.exn, out)
    }
}

/// A text by number.
#[derive(Drop)]
pub struct HeldText {
    pub text: Txt,
}

impl Keyed for HeldText {
    ghost use Rattle.rules_meaning.specs.Values.{Text};
    ghost use Rattle.number_tables.specs.value_keys.Keys.{value_key};

    // The key of the value that it is.
    ghost key = { λ h. value_key (Text h.text) };

    fn put_key(&self, alloc: Global, out: &mut Vec<u32>) -> Result<(), NoMemory> {
        put_value(&Value::Text(self.text.copy(alloc)?), out)
    }
}
