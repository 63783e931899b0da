//! Rows: what nodes give, where no script can write them, or where they are asked many times.
use hs_base::tree::forms::BinaryForm;
use hs_base::{Exn, NoMemory, Split, Txt, Value, ValueList, Values};
use hs_eval::{Found, eval_node, slots_mean};
use hs_items::Items;
use rules_code::{ExprId, Node, NodeLink};
use std::alloc::Global;
use std::test::Fail;

/// Whether a comparison holds, where both have an answer.
fn compared(alloc: Global, form: BinaryForm, a: &Value, b: &Value) -> Result<Option<bool>, Fail> {
    let mut env = Values::new(alloc);
    env.add(a.copy(alloc)?)?;
    env.add(b.copy(alloc)?)?;
    let mut nodes = Items::new(alloc);
    nodes.add(Node::Slot(0))?;
    nodes.add(Node::Slot(1))?;
    nodes.add(Node::Binary(form, ExprId(0), ExprId(1)))?;
    match &eval_node(alloc, &nodes, ExprId(2), &env)? {
        Found::Value(Value::Bool(answer)) => Ok(Some(*answer)),
        _ => Ok(None),
    }
}

/// Which of `==`, `/=`, `<`, `<=`, `>` and `>=` hold of two values, by their letters, and `-` for those that the values
/// don't have.
fn holding(alloc: Global, a: &Value, b: &Value) -> Result<String, Fail> {
    let forms = [
        BinaryForm::Equal,
        BinaryForm::Unequal,
        BinaryForm::Less,
        BinaryForm::AtMost,
        BinaryForm::Greater,
        BinaryForm::AtLeast,
    ];
    let mut letters = String::new(alloc);
    for form in forms {
        let letter = match compared(alloc, form, a, b)? {
            Some(true) => 'T',
            Some(false) => 'F',
            None => '-',
        };
        letters.push(letter)?;
    }
    Ok(letters)
}

/// Whether these comparisons hold of two values.
fn holds(alloc: Global, a: Value, b: Value, letters: &str) -> Result<bool, Fail> {
    let found = holding(alloc, &a, &b)?;
    Ok(found.as_str() == letters)
}

#[test]
fn comparisons_of_types_without_an_order(rt: HostRuntime) -> Result<(), Fail> {
    let alloc = rt.alloc();
    assert!(rt; holds(alloc, Value::Bool(true), Value::Bool(true), "TF----")?);
    assert!(rt; holds(alloc, Value::Bool(false), Value::Bool(true), "FT----")?);
    assert!(rt; holds(alloc, Value::Thread(3), Value::Thread(3), "TF----")?);
    assert!(rt; holds(alloc, Value::Thread(3), Value::Thread(4), "FT----")?);
    let killed = Value::Exn(Exn::ThreadKilled);
    assert!(rt; holds(alloc, killed, Value::Exn(Exn::Overflow), "FT----")?);
    let oh = Value::Exn(Exn::ErrorCall(Txt::of(alloc, "oh")?));
    let same = Value::Exn(Exn::ErrorCall(Txt::of(alloc, "oh")?));
    assert!(rt; holds(alloc, oh, same, "TF----")?);
    Ok(())
}

/// The rest of a list whose first item is 7.
fn after_seven(list: &ValueList) -> Result<Option<ValueList>, NoMemory> {
    match list.split()? {
        Split::Of(Value::Int(7), rest) => Ok(Some(rest)),
        _ => Ok(None),
    }
}

/// How many items a list has, up to so many, where all are 7.
fn sevens(found: &Found, most: usize) -> Result<usize, NoMemory> {
    let Found::Value(Value::List(items)) = found else {
        return Ok(0);
    };
    let mut rest = items.copy()?;
    for count in 0..most {
        match after_seven(&rest)? {
            Some(more) => rest = more,
            None => return Ok(count),
        }
    }
    Ok(most)
}

#[test]
fn a_long_list(rt: HostRuntime) -> Result<(), Fail> {
    slots_mean();
    let mut nodes = Items::new(rt.alloc());
    nodes.add(Node::Int(7))?;
    let ids = vec![in rt.alloc(); ExprId(0); 50_000]?;
    nodes.add(Node::List(Items::from_vec(ids)))?;
    let found = eval_node(rt.alloc(), &nodes, ExprId(1), &Items::new(rt.alloc()))?;
    assert_eq!(rt; sevens(&found, 50_001)?, 50_000);
    Ok(())
}

/// `case $0 of { [] -> 0; x : xs -> x }` and `7 : $0`, at 3 and at 5.
fn reading(alloc: Global) -> Result<Items<Node>, Fail> {
    let mut links = Items::new(alloc);
    links.add(NodeLink {
        form: BinaryForm::Cons,
        operand: ExprId(0),
    })?;
    let mut nodes = Items::new(alloc);
    nodes.add(Node::Slot(0))?;
    nodes.add(Node::Int(0))?;
    nodes.add(Node::Slot(1))?;
    nodes.add(Node::CaseList(ExprId(0), ExprId(1), ExprId(2)))?;
    nodes.add(Node::Int(7))?;
    nodes.add(Node::Conses(ExprId(4), links))?;
    Ok(nodes)
}

#[test]
fn a_long_list_is_read_many_times(rt: HostRuntime) -> Result<(), Fail> {
    let alloc = rt.alloc();
    let mut list = ValueList::new();
    for k in 0..100_000 {
        list = ValueList::cons(alloc, Value::Int(k), list)?;
    }
    let mut env = Values::new(alloc);
    env.add(Value::List(list))?;
    let nodes = reading(alloc)?;
    for _time in 0..100_000 {
        let first = eval_node(alloc, &nodes, ExprId(3), &env)?;
        assert!(rt; matches!(&first, Found::Value(Value::Int(99_999))));
        let longer = eval_node(alloc, &nodes, ExprId(5), &env)?;
        assert!(rt; matches!(&longer, Found::Value(Value::List(_))));
    }
    Ok(())
}
