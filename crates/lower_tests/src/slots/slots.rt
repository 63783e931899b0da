//! Environments of slots.
use hs_base::Value;
use local_steps::environments::Env;
use std::test::Fail;

#[test]
fn ten_values_stand_in_their_slots(rt: HostRuntime) -> Result<(), Fail> {
    let alloc = rt.alloc();
    let mut env = Env::new(alloc);
    for n in 0..10 {
        env.push(alloc, Value::Int(n))?;
    }
    let again = env.copy(alloc)?;
    assert_eq!(rt; again.len(), 10);
    assert!(rt; matches!(again.get(0), Some(Value::Int(0))));
    assert!(rt; matches!(again.get(9), Some(Value::Int(9))));
    assert!(rt; again.get(10).is_none());
    Ok(())
}

#[test]
fn a_value_comes_without_memory(rt: HostRuntime) -> Result<(), Fail> {
    let alloc = rt.alloc();
    let mut env = Env::new(alloc);
    env.push(alloc, Value::Bool(true))?;
    let env = env.waiting(alloc)?.with(Value::Int(7));
    assert_eq!(rt; env.len(), 2);
    assert!(rt; matches!(env.get(1), Some(Value::Int(7))));
    Ok(())
}
