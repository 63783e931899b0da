//! Rows: what the expression that a script's `main` performs gives, from the bytes of the script on.
use hs_base::{Exn, NoMemory, Value, Values};
use hs_compile::compile;
use hs_eval::{Outcome, eval};
use rules_code::{Act, Code};
use slot_laws::expressions::nodes_may_be_evaluated;
use slot_laws::moving::actions_are_typed;
use std::alloc::Global;
use std::test::Fail;

/// What a row expects of an expression.
#[derive(Clone, Copy, Debug)]
enum Answer {
    Text(&'static str),
    Overflow,
    DivideByZero,
}

/// An expression, and what `show` of it gives.
const SHOWN: [(&str, Answer); 31] = [
    ("div (-7) 2", Answer::Text("-4")),
    ("mod (-7) 2", Answer::Text("1")),
    ("mod 7 (-2)", Answer::Text("-1")),
    ("div (-9223372036854775807 - 1) (-1)", Answer::Overflow),
    ("mod (-9223372036854775807 - 1) (-1)", Answer::Text("0")),
    ("div 1 0 + mod 1 0", Answer::DivideByZero),
    (
        "9223372036854775807 + 1",
        Answer::Text("-9223372036854775808"),
    ),
    (
        "(-9223372036854775807 - 1) + (-1)",
        Answer::Text("9223372036854775807"),
    ),
    (
        "-9223372036854775807 - 2",
        Answer::Text("9223372036854775807"),
    ),
    (
        "9223372036854775807 - (-1)",
        Answer::Text("-9223372036854775808"),
    ),
    ("9223372036854775807 * 2", Answer::Text("-2")),
    (
        "(-9223372036854775807 - 1) * (-1)",
        Answer::Text("-9223372036854775808"),
    ),
    ("(-9223372036854775807 - 1) * 2", Answer::Text("0")),
    (
        "-9223372036854775807 - 1",
        Answer::Text("-9223372036854775808"),
    ),
    (
        "-(-9223372036854775807 - 1)",
        Answer::Text("-9223372036854775808"),
    ),
    ("\"ab\" < \"b\"", Answer::Text("True")),
    ("False && div 1 0 == 0", Answer::Text("False")),
    ("div 1 0 == 0 && False", Answer::DivideByZero),
    ("True && div 1 0 == 0", Answer::DivideByZero),
    ("True || div 1 0 == 0", Answer::Text("True")),
    ("False || div 1 0 == 0", Answer::DivideByZero),
    ("let x = 1 in let x = x + 1 in x", Answer::Text("2")),
    ("if True then 1 else div 1 0", Answer::Text("1")),
    ("if False then div 1 0 else 1", Answer::Text("1")),
    (
        "case Nothing @Int of { Nothing -> 1; Just x -> div x 0 }",
        Answer::Text("1"),
    ),
    (
        "case Just 1 of { Nothing -> div 1 0; Just x -> x }",
        Answer::Text("1"),
    ),
    (
        "case Left @Int @Int 1 of { Left x -> x; Right y -> div y 0 }",
        Answer::Text("1"),
    ),
    (
        "case Right @Int @Int 1 of { Left x -> div x 0; Right y -> y }",
        Answer::Text("1"),
    ),
    (
        "case [] @Int of { [] -> 1; x : xs -> div x 0 }",
        Answer::Text("1"),
    ),
    (
        "case [1] of { [] -> div 1 0; x : xs -> x }",
        Answer::Text("1"),
    ),
    ("case (1, 2) of { (x, y) -> x }", Answer::Text("1")),
];

/// What the expression of the action gives that is the whole body of `main`: a primitive of one expression.
fn performed(alloc: Global, code: &Code) -> Result<Option<Outcome>, NoMemory> {
    actions_are_typed();
    nodes_may_be_evaluated();
    let Some(Act::Perform(_, ids)) = code.body.acts.get(code.main().0) else {
        return Ok(None);
    };
    let [at] = ids.as_slice() else {
        return Ok(None);
    };
    let outcome = eval(alloc, code, *at, &Values::new(alloc))?;
    Ok(Some(outcome))
}

/// What the expression that a script's `main` performs gives, or nothing where the script is refused.
fn given(alloc: Global, script: &[u8]) -> Result<Option<Outcome>, Fail> {
    let Ok(code) = compile(alloc, script) else {
        return Ok(None);
    };
    Ok(performed(alloc, &code)?)
}

/// What `putStrLn` of an expression would print.
fn printed(alloc: Global, expression: &str) -> Result<Option<Outcome>, Fail> {
    let script = format!(in alloc; "main :: IO () = {{ putStrLn ({}) }};", expression)?;
    given(alloc, script.as_bytes())
}

/// Whether this is the answer.
fn is_answer(outcome: &Option<Outcome>, answer: Answer) -> bool {
    match (outcome, answer) {
        (Some(Outcome::Value(Value::Text(t))), Answer::Text(text)) => t.as_str() == text,
        (Some(Outcome::Throws(Exn::Overflow)), Answer::Overflow) => true,
        (Some(Outcome::Throws(Exn::DivideByZero)), Answer::DivideByZero) => true,
        _ => false,
    }
}

#[test]
fn expressions_give_what_they_mean(rt: HostRuntime) -> Result<(), Fail> {
    let alloc = rt.alloc();
    for (expression, answer) in SHOWN {
        let shown = format!(in alloc; "show ({})", expression)?;
        let outcome = printed(alloc, shown.as_str())?;
        assert!(rt; is_answer(&outcome, answer), "{expression}");
    }
    Ok(())
}

/// Which of `==`, `/=`, `<`, `<=`, `>` and `>=` hold of two expressions, by their letters.
const COMPARED: [(&str, &str, &str); 6] = [
    (
        "(-9223372036854775807 - 1)",
        "9223372036854775807",
        "FTTTFF",
    ),
    ("0", "(-1)", "FTFFTT"),
    ("(-7)", "(-7)", "TFFTFT"),
    ("\"ab\"", "\"b\"", "FTTTFF"),
    ("\"ab\"", "\"a\"", "FTFFTT"),
    ("\"a\"", "\"a\"", "TFFTFT"),
];

/// Which comparisons hold of two expressions, by their letters, and `-` for one without an answer.
fn holding(alloc: Global, a: &str, b: &str) -> Result<String, Fail> {
    let mut letters = String::new(alloc);
    for operator in ["==", "/=", "<", "<=", ">", ">="] {
        let shown = format!(in alloc; "show ({} {} {})", a, operator, b)?;
        let outcome = printed(alloc, shown.as_str())?;
        let letter = if is_answer(&outcome, Answer::Text("True")) {
            'T'
        } else if is_answer(&outcome, Answer::Text("False")) {
            'F'
        } else {
            '-'
        };
        letters.push(letter)?;
    }
    Ok(letters)
}

#[test]
fn comparisons_of_numbers_and_texts(rt: HostRuntime) -> Result<(), Fail> {
    let alloc = rt.alloc();
    for (a, b, letters) in COMPARED {
        let found = holding(alloc, a, b)?;
        assert_eq!(rt; found.as_str(), letters, "{a} {b}");
    }
    Ok(())
}

#[test]
fn texts_have_a_limit(rt: HostRuntime) -> Result<(), Fail> {
    let alloc = rt.alloc();
    let long = "a".repeat(alloc, 65_536)?;
    let literal = format!(in alloc; "\"{}\"", long.as_str())?;
    let within = printed(alloc, literal.as_str())?;
    assert!(rt; matches!(&within, Some(Outcome::Value(Value::Text(_)))));
    let joined = format!(in alloc; "\"{}\" ++ \"\"", long.as_str())?;
    let within = printed(alloc, joined.as_str())?;
    assert!(rt; matches!(&within, Some(Outcome::Value(Value::Text(_)))));
    let joined = format!(in alloc; "\"{}\" ++ \"b\"", long.as_str())?;
    let beyond = printed(alloc, joined.as_str())?;
    assert!(rt; matches!(&beyond, Some(Outcome::Throws(Exn::TextLimit))));
    let literal = format!(in alloc; "\"{}b\"", long.as_str())?;
    let beyond = printed(alloc, literal.as_str())?;
    assert!(rt; matches!(&beyond, Some(Outcome::Throws(Exn::TextLimit))));
    Ok(())
}

#[test]
fn nested_calls(rt: HostRuntime) -> Result<(), Fail> {
    let script = b"double (x :: Int) :: Int = x + x;
        four (x :: Int) :: Int = double (double x);
        main :: IO () = { putStrLn (show (four (double 5))) };";
    let outcome = given(rt.alloc(), script)?;
    assert!(rt; is_answer(&outcome, Answer::Text("40")));
    Ok(())
}

#[test]
fn calls_nest_to_an_unfolded_height_of_999(rt: HostRuntime) -> Result<(), Fail> {
    let alloc = rt.alloc();
    let mut script = b"f0 :: Int = 7;\n".to_vec(alloc)?;
    for i in 1..=996usize {
        let definition = format!(in alloc; "f{} :: Int = f{};\n", i, i.saturating_sub(1))?;
        script.extend_from_slice(definition.as_bytes())?;
    }
    script.extend_from_slice(b"main :: IO () = { putStrLn (show f996) };")?;
    let outcome = given(alloc, &script)?;
    assert!(rt; is_answer(&outcome, Answer::Text("7")));
    Ok(())
}
