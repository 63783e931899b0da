//! The keys of values.
ghost use Rattle.std.specs.Prelude.{◌≡◌, ◌++◌, ◌∷◌, [], OnOk};
ghost use Rattle.rules_meaning.specs.Values.{value_of, list_value_of};
ghost use Rattle.number_tables.specs.value_keys.Keys as keys;
ghost use Rattle.number_tables.specs.value_keys.Keys.{text_key, exn_key, int_key, value_key};

use crate::value_keys::numbers::{mask_number, put, put_wide};
use hs_base::{Exn, NoMemory, Txt, Value, ValueList};

/// Puts the key of a text at the end of a list.
pub fn put_text(text: &Txt, out: &mut Vec<u32>) -> Result<(), NoMemory>
    ensures { OnOk result (out.new.items ≡ out.old.items ++ text_key text.now) }
{
    for byte in text.as_str().as_bytes() {
        put(out, u32::from(*byte) + 1)?;
    }
    put(out, 0)
}

/// Puts the key of an exception at the end of a list.
pub fn put_exn(exn: &Exn, out: &mut Vec<u32>) -> Result<(), NoMemory>
    ensures { OnOk result (out.new.items ≡ out.old.items ++ exn_key exn.now) }
{
    match exn {
        Exn::ErrorCall(text) => {
            put(out, 0)?;
            put_text(text, out)
        }
        Exn::ThreadKilled => put(out, 1),
        Exn::UserInterrupt => put(out, 2),
        Exn::DivideByZero => put(out, 3),
        Exn::Overflow => put(out, 4),
        Exn::Timeout(number) => {
            put(out, 5)?;
            put(out, *number)
        }
        Exn::TextLimit => put(out, 6),
        Exn::BlockedIndefinitely => put(out, 7),
    }
}

/// Puts the key of a number of a script at the end of a list.
fn put_int(number: i64, out: &mut Vec<u32>) -> Result<(), NoMemory>
    ensures { OnOk result (out.new.items ≡ out.old.items ++ int_key number) }
{
    if number >= 0 {
        put(out, 0)?;
        put_wide(out, number as u64)
    } else {
        put(out, 1)?;
        put_wide(out, number.unsigned_abs() - 1)
    }
}

/// The number of a truth value.
fn truth_number(truth: bool) -> u32
    ensures { result ≡ keys.truth_number truth }
{
    if truth { 1 } else { 0 }
}

/// Puts two numbers at the end of a list.
fn put_two(out: &mut Vec<u32>, first: u32, second: u32) -> Result<(), NoMemory>
    ensures { OnOk result (out.new.items ≡ out.old.items ++ first ∷ second ∷ []) }
{
    put(out, first)?;
    put(out, second)
}

/// Puts the key of a value at the end of a list. Where memory runs out a part of it may stand there.
#[cycle(keys)]
pub fn put_value(value: &Value, out: &mut Vec<u32>) -> Result<(), NoMemory>
    ensures { OnOk result (out.new.items ≡ out.old.items ++ value_key (value_of value.now)) }
{
    match value {
        Value::Unit => put(out, 1),
        Value::Int(number) => {
            put(out, 2)?;
            put_int(*number, out)
        }
        Value::Bool(truth) => put_two(out, 3, truth_number(*truth)),
        Value::Text(text) => {
            put(out, 4)?;
            put_text(text, out)
        }
        Value::Pair(a, b) => {
            put(out, 5)?;
            put_value(a.get(), out)?;
            put_value(b.get(), out)
        }
        Value::Nothing => put(out, 6),
        Value::Just(a) => {
            put(out, 7)?;
            put_value(a.get(), out)
        }
        Value::Left(a) => {
            put(out, 8)?;
            put_value(a.get(), out)
        }
        Value::Right(a) => {
            put(out, 9)?;
            put_value(a.get(), out)
        }
        Value::List(list) => put_list(list, out),
        Value::Cell(number) => put_two(out, 12, *number),
        Value::Thread(number) => put_two(out, 13, *number),
        Value::Exn(exn) => {
            put(out, 14)?;
            put_exn(exn, out)
        }
        Value::Restore(mask) => put_two(out, 15, mask_number(*mask)),
        Value::Inst(number) => put_two(out, 16, *number),
    }
}

/// Puts the key of a list at the end of a list, by a loop along it.
#[cycle(keys)]
fn put_list(list: &ValueList, out: &mut Vec<u32>) -> Result<(), NoMemory>
    ensures { OnOk result (out.new.items ≡ out.old.items ++ value_key (list_value_of list.now)) }
{
    let mut list = list;
    loop {
        match list {
            ValueList::Nil => return put(out, 10),
            ValueList::Cons(head) => {
                let head = head.get();
                put(out, 11)?;
                put_value(&head.first, out)?;
                list = &head.rest;
            }
        }
    }
}
