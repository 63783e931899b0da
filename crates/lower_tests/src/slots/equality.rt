//! Equality of values and of environments.
use hs_base::{Txt, Value};
use hs_items::Shared;
use local_steps::environments::Env;
use local_steps::equality::{same_env, same_value};
use std::test::Fail;

#[test]
fn equal_pairs_are_the_same(rt: HostRuntime) -> Result<(), Fail> {
    let alloc = rt.alloc();
    let text = Shared::new(alloc, Value::Text(Txt::of(alloc, "x")?))?;
    let again = Shared::new(alloc, Value::Text(Txt::of(alloc, "x")?))?;
    let one = Shared::new(alloc, Value::Int(1))?;
    let two = Shared::new(alloc, Value::Int(1))?;
    assert!(rt; same_value(&Value::Pair(text, one), &Value::Pair(again, two)));
    assert!(rt; !same_value(&Value::Int(1), &Value::Cell(1)));
    Ok(())
}

#[test]
fn environments_differ_by_a_value(rt: HostRuntime) -> Result<(), Fail> {
    let alloc = rt.alloc();
    let mut env = Env::new(alloc);
    env.push(alloc, Value::Int(1))?;
    let mut more = env.copy(alloc)?;
    assert!(rt; same_env(&env, &more));
    more.push(alloc, Value::Unit)?;
    assert!(rt; !same_env(&env, &more));
    Ok(())
}
