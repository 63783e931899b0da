//! Exceptions, values and limits.
use hs_base::{Exn, Limits, Mask, NoMemory, Split, Txt, Value, ValueList, Values};
use hs_items::Shared;
use std::alloc::Global;
use std::test::Fail;

/// Whether the exception has this text, and a copy of it is the same exception.
fn shows(alloc: Global, e: &Exn, text: &str) -> Result<bool, Fail> {
    let shown = e.text(alloc)?;
    let again = e.copy(alloc)?;
    Ok(shown.as_str() == text && again.same(e))
}

#[test]
fn texts_of_exceptions(rt: HostRuntime) -> Result<(), Fail> {
    let alloc = rt.alloc();
    let message = Txt::of(alloc, "oh")?;
    assert!(rt; shows(alloc, &Exn::ErrorCall(message), "oh")?);
    assert!(rt; shows(alloc, &Exn::ThreadKilled, "thread killed")?);
    assert!(rt; shows(alloc, &Exn::UserInterrupt, "user interrupt")?);
    assert!(rt; shows(alloc, &Exn::DivideByZero, "divide by zero")?);
    assert!(rt; shows(alloc, &Exn::Overflow, "arithmetic overflow")?);
    assert!(rt; shows(alloc, &Exn::Timeout(3), "<<timeout>>")?);
    assert!(rt; shows(alloc, &Exn::TextLimit, "text too long")?);
    let blocked = "thread blocked indefinitely in an MVar operation";
    assert!(rt; shows(alloc, &Exn::BlockedIndefinitely, blocked)?);
    Ok(())
}

/// One value of each variant, but for the exceptions.
fn one_of_each(alloc: Global) -> Result<Values, Fail> {
    let one = Shared::new(alloc, Value::Int(-1))?;
    let two = Shared::new(alloc, Value::Bool(true))?;
    let just = Shared::new(alloc, Value::Cell(2))?;
    let left = Shared::new(alloc, Value::Thread(3))?;
    let right = Shared::new(alloc, Value::Inst(4))?;
    let mut all = Values::new(alloc);
    all.add(Value::Unit)?;
    all.add(Value::Text(Txt::of(alloc, "x")?))?;
    all.add(Value::Pair(one, two))?;
    all.add(Value::Nothing)?;
    all.add(Value::Just(just))?;
    all.add(Value::Left(left))?;
    all.add(Value::Right(right))?;
    all.add(Value::List(ValueList::new()))?;
    all.add(Value::Exn(Exn::Timeout(5)))?;
    all.add(Value::Restore(Mask::Masked))?;
    Ok(all)
}

/// The letter of a value's variant.
fn letter(value: &Value) -> char {
    match value {
        Value::Unit => 'u',
        Value::Int(_) => 'i',
        Value::Bool(_) => 'b',
        Value::Text(_) => 't',
        Value::Pair(_, _) => 'p',
        Value::Nothing => 'n',
        Value::Just(_) => 'j',
        Value::Left(_) => 'l',
        Value::Right(_) => 'r',
        Value::List(_) => 's',
        Value::Cell(_) => 'c',
        Value::Thread(_) => 'd',
        Value::Exn(_) => 'e',
        Value::Restore(_) => 'm',
        Value::Inst(_) => 'k',
    }
}

/// The rest of a list whose first value has this letter.
fn after(list: &ValueList, first: char) -> Result<Option<ValueList>, NoMemory> {
    match list.split()? {
        Split::Of(value, rest) if letter(value) == first => Ok(Some(rest)),
        _ => Ok(None),
    }
}

/// Whether the values of a list have these letters.
fn has_letters(list: &ValueList, letters: &str) -> Result<bool, Fail> {
    let mut rest = list.copy()?;
    for first in letters.chars() {
        match after(&rest, first)? {
            Some(more) => rest = more,
            None => return Ok(false),
        }
    }
    Ok(rest.is_empty())
}

#[test]
fn copies_of_each_value(rt: HostRuntime) -> Result<(), Fail> {
    let list = ValueList::from_vec(rt.alloc(), one_of_each(rt.alloc())?.into_vec())?;
    let all = Value::List(list);
    let again = all.copy(rt.alloc())?;
    assert!(rt; matches!(&again, Value::List(_)));
    if let Value::List(items) = &again {
        assert!(rt; has_letters(items, "utpnjlrsem")?);
        assert!(rt; !has_letters(items, "utpnjlrse")?);
    }
    Ok(())
}

/// A list of that many numbers, built by `:`.
fn numbers(alloc: Global, count: i64) -> Result<ValueList, NoMemory> {
    let mut list = ValueList::new();
    for k in 0..count {
        list = ValueList::cons(alloc, Value::Int(k), list)?;
    }
    Ok(list)
}

#[test]
fn a_long_list_is_shared_and_dropped(rt: HostRuntime) -> Result<(), Fail> {
    let long = Value::List(numbers(rt.alloc(), 1_000_000)?);
    for _time in 0..100_000 {
        let again = long.copy(rt.alloc())?;
        assert!(rt; matches!(&again, Value::List(_)));
    }
    if let Value::List(items) = &long {
        let first = items.split()?;
        assert!(rt; matches!(&first, Split::Of(Value::Int(999_999), _)));
    }
    Ok(())
}

#[test]
fn a_list_of_lists_and_deep_parts_are_dropped(rt: HostRuntime) -> Result<(), Fail> {
    let mut lists = ValueList::new();
    for _list in 0..1_000 {
        lists = ValueList::cons(rt.alloc(), Value::List(numbers(rt.alloc(), 100)?), lists)?;
    }
    let mut deep = Value::List(lists);
    for _level in 0..64 {
        deep = Value::Just(Shared::new(rt.alloc(), deep)?);
    }
    assert!(rt; matches!(&deep, Value::Just(_)));
    Ok(())
}

#[test]
fn a_long_text_is_shared(rt: HostRuntime) -> Result<(), Fail> {
    let text = Txt::from_string("a".repeat(rt.alloc(), 65_536)?)?;
    for _time in 0..100_000 {
        assert_eq!(rt; text.copy(rt.alloc())?.as_str().len(), 65_536);
    }
    Ok(())
}

#[test]
fn limits_as_shipped(rt: HostRuntime) {
    let limits = Limits::shipped();
    assert_eq!(rt; (limits.threads, limits.cells), (65_536, 262_144));
    assert_eq!(rt; (limits.frames, limits.output), (200_000, 8_388_608));
}
