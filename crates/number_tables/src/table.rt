ghost use Rattle.std.specs.Prelude.{◌≡◌, ◌++◌, ◌∷◌, ◌⊎◌, [], ℕ, length, slice_get, IfOk, OnOk, OnErr, MatchOption};
ghost use Rattle.std.specs.Option.{option_copied};
ghost use Rattle.number_tables.specs.Tables.{AreApart, Grows, IsNumberOf};

use crate::keyed::Keyed;
use hs_base::NoMemory;
use std::alloc::Global;
use std::collections::HashMap;
use std::marker::Model;

/// Room for the numbers of most keys, so that a key seldom moves while it grows.
const KEY_ROOM: usize = 64;

/// Things by number, no two with one key. There are at most 2^32.
pub struct Table<T: Keyed> {
    /// By number.
    things: Vec<T>,
    /// The number of the thing with a key.
    numbers: HashMap<Vec<u32>, u32>,
}

// Written out, so that it is proved once, here, and not in each function above that lets one go.
impl<T: Keyed + Drop> Drop for Table<T> {
    fn drop(self) {
        let Table {
            things: _,
            numbers: _,
        } = self;
    }
}

impl<T: Keyed> Model for Table<T> {
    ghost use Rattle.std.specs.Prelude.{List, ◌≤◌, ◌^◌, length};
    ghost use Rattle.std.specs.Coded.{coded_list};
    ghost use Rattle.number_tables.specs.Tables.{IsIndex};

    ghost Value = { List T };

    ghost coded = { coded_list T.code };

    ghost view = { λ t. t.things.items };

    ghost invariant = { λ t. IsIndex T.key t.numbers t.things.items × (length t.things.items ≤ 2 ^ 32) };
}

impl<T: Keyed> Table<T> {
    /// No things.
    pub fn new(alloc: Global) -> Table<T>
        ensures { result ≡ [] }
    {
        Table {
            things: Vec::new(alloc),
            numbers: HashMap::new(alloc),
        }
    }

    /// How many things there are: the number that the next one will have.
    pub fn len(&self) -> usize
        ensures { result ≡ length self.now }
    {
        self.things.len()
    }

    /// The thing of a number.
    pub fn get(&self, number: u32) -> Option<&T>
        ensures { option_copied result ≡ slice_get self.now number }
    {
        self.things.get(number as usize)
    }

    /// No two numbers are those of one key.
    pub fn keys_are_apart(&self)
        ensures { AreApart T.key self.now }
    {
        let _ = &self.things;
    }
}

impl<T: Keyed + Drop> Table<T> {
    /// The number of the thing with the key of this one, which is added where there is none. Where memory runs out, or there
    /// are 2^32 things, the table is as before.
    pub fn number(&mut self, alloc: Global, thing: T) -> Result<u32, NoMemory>
        ensures is { IfOk result (λ n. IsNumberOf T.key self.new n thing) }
        ensures stays { OnOk result ((n : ℕ) → IsNumberOf T.key self.old n thing → self.new ≡ self.old) }
        ensures adds { (self.new ≡ self.old) ⊎ (self.new ≡ self.old ++ thing ∷ []) }
        ensures grows { Grows self.old self.new }
        ensures err { OnErr result (self.new ≡ self.old) }
    {
        let mut key = Vec::with_capacity(alloc, KEY_ROOM)?;
        thing.put_key(alloc, &mut key)?;
        match self.find(key.as_slice(), &thing) {
            Some(number) => Ok(number),
            None => self.add(key, thing),
        }
    }

    /// The number of the thing with the key of this one, if there is one. Nothing is added.
    pub fn known(&self, alloc: Global, thing: &T) -> Result<Option<u32>, NoMemory>
        ensures { IfOk result (λ found. MatchOption found ((n : ℕ) → IsNumberOf T.key self.now n thing.now → ⊥) (λ n. IsNumberOf T.key self.now n thing.now)) }
    {
        let mut key = Vec::new(alloc);
        thing.put_key(alloc, &mut key)?;
        Ok(self.find(key.as_slice(), thing))
    }

    /// The number of the thing with the key of this one.
    fn find(&self, key: &[u32], thing: &T) -> Option<u32>
        requires { key.now ≡ T.key thing.now }
        ensures { MatchOption result ((n : ℕ) → IsNumberOf T.key self.now n thing.now → ⊥) (λ n. IsNumberOf T.key self.now n thing.now) }
    {
        self.numbers.get(key).copied()
    }

    /// Adds a thing whose key no other has.
    fn add(&mut self, key: Vec<u32>, thing: T) -> Result<u32, NoMemory>
        requires key { key.items ≡ T.key thing }
        requires none { (n : ℕ) → IsNumberOf T.key self.old n thing → ⊥ }
        ensures ok { IfOk result (λ n. (n ≡ length self.old) × (self.new ≡ self.old ++ thing ∷ [])) }
        ensures err { OnErr result (self.new ≡ self.old) }
    {
        let count = self.things.len();
        if count > u32::MAX as usize {
            return Err(NoMemory);
        }
        let number = count as u32;
        self.things.reserve(1)?;
        match self.numbers.insert(key, number) {
            Err(_) => Err(NoMemory),
            Ok(_) => {
                self.things.push_reserved(thing);
                Ok(number)
            }
        }
    }
}
