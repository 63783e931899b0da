//! Rows of actions: texts, and how many steps make what the last action of each stands for as a form of async scopes.

use conc_lib::scope;
use hs_base::{Action, Body, Script};
use hs_lex::lex;
use hs_parse::parse;
use std::alloc::Global;
use std::test::Fail;

/// A script, and how many steps the row of its last action has, if it has one.
const ROWS: [(&str, Option<usize>); 9] = [
    (
        "main :: IO () = { withAsync { return 1 } a { return () } };",
        Some(75),
    ),
    ("f (a :: Async Int) :: IO Int = { wait a };", Some(19)),
    ("f (a :: Async Int) :: IO () = { cancel a };", Some(15)),
    (
        "main :: IO () = { race { return 1 } { return True } };",
        Some(217),
    ),
    (
        "main :: IO () = { x <- myThreadId; concurrently { return 1 } { return True } };",
        Some(289),
    ),
    (
        "main :: IO () = { finally { return () } { return () } };",
        None,
    ),
    ("main :: IO () = { mask_ { return () } };", None),
    ("f (t :: ThreadId) :: IO () = { killThread t };", None),
    ("main :: IO () = { f };", None),
];

/// The script of a text, if it is one.
fn script_of(alloc: Global, text: &[u8]) -> Option<Script> {
    if text.len() > 1_048_576 {
        return None;
    }
    let tokens = lex(alloc, text).ok()?;
    parse(alloc, &tokens).ok()
}

/// The last action of the only definition, if this is an action function.
fn last_action(script: &Script) -> Option<&Action> {
    match script.defs.as_slice() {
        [def] => match &def.body {
            Body::Action(_, block) => Some(block.last.get()),
            Body::Pure(_, _) => None,
        },
        _ => None,
    }
}

#[test]
fn the_forms_of_async_scopes_have_their_rows(rt: HostRuntime) -> Result<(), Fail> {
    let alloc = rt.alloc();
    for (text, length) in ROWS {
        let Some(script) = script_of(alloc, text.as_bytes()) else {
            assert!(rt; false, "no script: {text}");
            return Ok(());
        };
        let Some(action) = last_action(&script) else {
            assert!(rt; false, "no action: {text}");
            return Ok(());
        };
        let found = match scope(action) {
            Some(row) => Some(row.len()),
            None => None,
        };
        assert!(rt; found == length, "{text}");
    }
    Ok(())
}
