//! What a refusal of the checker carries beside its place.

use hs_base::{Pos, Ty};
use hs_lex::lex;
use hs_parse::parse;
use hs_types::{Form, TypeFault, Want, check};
use std::alloc::Global;
use std::test::Fail;

/// The broken rule of a text that is a script, if it breaks one.
fn fault_of(alloc: Global, text: &[u8]) -> Option<TypeFault> {
    if text.len() > 1_048_576 {
        return None;
    }
    let tokens = lex(alloc, text).ok()?;
    let script = parse(alloc, &tokens).ok()?;
    check(alloc, script).err()
}

#[test]
fn a_wrong_number_of_arguments_is_carried(rt: HostRuntime) -> Result<(), Fail> {
    let alloc = rt.alloc();
    let more = fault_of(
        alloc,
        b"f (n :: Int) :: Int = n;\nmain :: IO () = { putStrLn (show (f 1 2)) };",
    );
    assert!(rt;
        matches!(
            &more,
            Some(TypeFault::Arity {
                pos: Pos { line: 2, col: 35 },
                want: 1,
                got: 2
            })
        )
    );
    let fewer = fault_of(
        alloc,
        b"f (n :: Int) (b :: Bool) :: IO () = { return () };\nmain :: IO () = { f };",
    );
    assert!(rt;
        matches!(
            &fewer,
            Some(TypeFault::Arity {
                pos: Pos { line: 2, col: 19 },
                want: 2,
                got: 0
            })
        )
    );
    let of_a_value = fault_of(alloc, b"x (n :: Int) :: Int = n 1;");
    assert!(rt;
        matches!(
            &of_a_value,
            Some(TypeFault::Arity {
                pos: Pos { line: 1, col: 23 },
                want: 0,
                got: 1
            })
        )
    );
    Ok(())
}

#[test]
fn wanted_and_found_types_are_carried(rt: HostRuntime) -> Result<(), Fail> {
    let alloc = rt.alloc();
    let number = fault_of(alloc, b"main :: IO () = { putStrLn 3 };");
    assert!(rt;
        matches!(
            &number,
            Some(TypeFault::Mismatch {
                pos: Pos { line: 1, col: 19 },
                want: Want::Exactly(Ty::Text),
                got: Ty::Int
            })
        )
    );
    let second = fault_of(alloc, b"x :: Bool = 1 == True;");
    assert!(rt;
        matches!(
            &second,
            Some(TypeFault::Mismatch {
                pos: Pos { line: 1, col: 15 },
                want: Want::Exactly(Ty::Int),
                got: Ty::Bool
            })
        )
    );
    let no_cell = fault_of(alloc, b"f (m :: Int) :: IO () = { putMVar m 1 };");
    assert!(rt;
        matches!(
            &no_cell,
            Some(TypeFault::Mismatch {
                pos: Pos { line: 1, col: 27 },
                want: Want::Form(Form::Cell),
                got: Ty::Int
            })
        )
    );
    Ok(())
}
