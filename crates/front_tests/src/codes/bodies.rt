//! What scripts expand to: the body of `main`, written by hand from the table of expansions.
//!
//! A body is shown as its core actions: `* <- {A}; B` binds the next slot, `{A}; B` binds none, `let E; A` binds the next
//! slot in A, `#k` reads slot k, `hard` is `uninterruptibleMask`, and `call k` calls the action function of that number.

use hs_base::tree::forms::{BinaryForm, EmptyForm, SideForm, UnaryForm};
use hs_base::{Exn, Value, Values};
use hs_core::expand;
use hs_items::Items;
use hs_lex::lex;
use hs_parse::parse;
use hs_types::check;
use rules_code::{Act, ActId, Code, CodeBody, ExprId, Node, Primitive};
use std::alloc::Global;
use std::test::Fail;

/// A script, and the body of its `main`.
const ROWS: [(&str, &str); 27] = [
    ("main :: IO () = { return () };", "return ()"),
    (
        "main :: IO () = { return 1; x <- return 2; return () };",
        "{return 1}; * <- {return 2}; return ()",
    ),
    (
        "main :: IO () = { let x = 1; y <- return (x + 1); return () };",
        "let 1; * <- {return #0 + 1}; return ()",
    ),
    (
        "main :: IO () = { throwIO @() Overflow };",
        "throwIO Overflow",
    ),
    (
        "main :: IO () = { if 1 == 2 then { putStr \"a\" } else { putStr \"b\" } };",
        "if Equal(1, 2) {putStr \"a\"} {putStr \"b\"}",
    ),
    (
        "main :: IO () = { case Just 1 of { Nothing -> { return () }; Just x -> { return () } } };",
        "maybe Just(1) {return ()} {return ()}",
    ),
    (
        "p :: Int = 1; f :: IO () = { return () }; g (n :: Int) :: IO () = { f }; main :: IO () = { g 7 };",
        "call 1 7",
    ),
    (
        "main :: IO () = { catch { putStr \"a\" } e { throwIO @() e } };",
        "catch {putStr \"a\"} {throwIO #0}",
    ),
    (
        "main :: IO () = { mask r { restore r { return () } } };",
        "mask {restore #0 {return ()}}",
    ),
    (
        "main :: IO () = { mask_ { return () } };",
        "mask {return ()}",
    ),
    (
        "main :: IO () = { uninterruptibleMask r { restore r { return () } } };",
        "hard {restore #0 {return ()}}",
    ),
    (
        "main :: IO () = { uninterruptibleMask_ { return () } };",
        "hard {return ()}",
    ),
    (
        "main :: IO () = { t <- forkIO { return () }; return () };",
        "* <- {fork {return ()}}; return ()",
    ),
    (
        "main :: IO () = { t <- forkIOWithUnmask r { restore r { return () } }; killThread t };",
        "* <- {forkUnmask {restore #0 {return ()}}}; throwTo #0 ThreadKilled",
    ),
    (
        "main :: IO () = { onException { putStr \"a\" } { putStr \"b\" } };",
        "catch {putStr \"a\"} {{putStr \"b\"}; throwIO #0}",
    ),
    (
        "main :: IO () = { finally { putStr \"a\" } { putStr \"b\" } };",
        "mask {* <- {catch {restore #0 {putStr \"a\"}} {{putStr \"b\"}; throwIO #1}}; {putStr \"b\"}; return #1}",
    ),
    (
        "main :: IO () = { bracket { return 1 } x { putStr \"b\" } { return () } };",
        "mask {* <- {return 1}; * <- {acquired}; * <- {catch {restore #0 {return ()}} {{release #2}; {putStr \"b\"}; throwIO #3}}; {release #2}; {putStr \"b\"}; return #3}",
    ),
    (
        "main :: IO () = { bracket { return () } x { return x } { return x } };",
        "mask {* <- {return ()}; * <- {acquired}; * <- {catch {restore #0 {return #1}} {{release #2}; {return #1}; throwIO #3}}; {release #2}; {return #1}; return #3}",
    ),
    (
        "main :: IO () = { m <- newMVar 0; modifyMVar_ m x { return (x + 1) } };",
        "* <- {newMVar 0}; let #0; mask {* <- {takeMVar #1}; * <- {catch {restore #2 {return #3 + 1}} {{putMVar #1 #3}; throwIO #4}}; putMVar #1 #4}",
    ),
    (
        "main :: IO () = { m <- newMVar 0; x <- readMVar m; return () };",
        "* <- {newMVar 0}; * <- {readMVar #0}; return ()",
    ),
    (
        "main :: IO () = { x <- timeout 5 { return 7 }; return () };",
        "* <- {let 5; if Less(#0, 0) {* <- {return 7}; return Just(#1)} {if Equal(#0, 0) {return Nothing} {* <- {myThreadId}; * <- {newTimeout}; catch {mask {* <- {forkUnmask {restore #4 {{threadDelay #0}; throwTo #1 #2}}}; * <- {acquired}; * <- {catch {restore #3 {* <- {return 7}; return Just(#6)}} {{release #5}; {hard {throwTo #4 ThreadKilled}}; throwIO #6}}; {release #5}; {hard {throwTo #4 ThreadKilled}}; return #6}} {if Equal(#3, #2) {return Nothing} {throwIO #3}}}}}; return ()",
    ),
    (
        "main :: IO () = { x <- return 1; x <- return (x + 1); y <- finally { return x } { return () }; return () };",
        "* <- {return 1}; * <- {return #0 + 1}; * <- {mask {* <- {catch {restore #2 {return #1}} {{return ()}; throwIO #3}}; {return ()}; return #3}}; return ()",
    ),
    (
        "main :: IO () = { withAsync { putStr \"a\" } a { putStr \"b\" } };",
        "* <- {newEmptyMVar}; mask {* <- {fork {* <- {catch {* <- {restore #1 {putStr \"a\"}}; return Right(#2)} {return Left(#2)}}; putMVar #0 #2}}; let Pair(#2, #0); * <- {catch {restore #1 {putStr \"b\"}} {{hard {{throwTo #2 ThreadKilled}; * <- {readMVar #0}; return ()}}; throwIO #4}}; {hard {{throwTo #2 ThreadKilled}; * <- {readMVar #0}; return ()}}; return #4}",
    ),
    (
        "main :: IO () = { x <- withAsync { return 1 } a { wait a }; return () };",
        "* <- {* <- {newEmptyMVar}; mask {* <- {fork {* <- {catch {* <- {restore #1 {return 1}}; return Right(#2)} {return Left(#2)}}; putMVar #0 #2}}; let Pair(#2, #0); * <- {catch {restore #1 {let #3; * <- {readMVar Snd(#4)}; either #5 {throwIO #6} {return #6}}} {{hard {{throwTo #2 ThreadKilled}; * <- {readMVar #0}; return ()}}; throwIO #4}}; {hard {{throwTo #2 ThreadKilled}; * <- {readMVar #0}; return ()}}; return #4}}; return ()",
    ),
    (
        "main :: IO () = { withAsync { putStr \"a\" } a { cancel a } };",
        "* <- {newEmptyMVar}; mask {* <- {fork {* <- {catch {* <- {restore #1 {putStr \"a\"}}; return Right(#2)} {return Left(#2)}}; putMVar #0 #2}}; let Pair(#2, #0); * <- {catch {restore #1 {let #3; {throwTo Fst(#4) ThreadKilled}; * <- {readMVar Snd(#4)}; return ()}} {{hard {{throwTo #2 ThreadKilled}; * <- {readMVar #0}; return ()}}; throwIO #4}}; {hard {{throwTo #2 ThreadKilled}; * <- {readMVar #0}; return ()}}; return #4}",
    ),
    (
        "main :: IO () = { x <- race { return 1 } { return () }; return () };",
        "* <- {* <- {newEmptyMVar}; * <- {newEmptyMVar}; mask {* <- {fork {* <- {catch {* <- {restore #2 {mask {* <- {catch {* <- {restore #3 {return 1}}; return Right(Left(#4))} {return Left(#4)}}; * <- {tryPutMVar #0 #4}; return ()}}}; return Right(#3)} {return Left(#3)}}; putMVar #1 #3}}; let Pair(#3, #1); * <- {catch {restore #2 {* <- {newEmptyMVar}; mask {* <- {fork {* <- {catch {* <- {restore #6 {mask {* <- {catch {* <- {restore #7 {return ()}}; return Right(Right(#8))} {return Left(#8)}}; * <- {tryPutMVar #0 #8}; return ()}}}; return Right(#7)} {return Left(#7)}}; putMVar #5 #7}}; let Pair(#7, #5); * <- {catch {restore #6 {* <- {takeMVar #0}; either #9 {throwIO #10} {return #10}}} {{hard {{throwTo #7 ThreadKilled}; * <- {readMVar #5}; return ()}}; throwIO #9}}; {hard {{throwTo #7 ThreadKilled}; * <- {readMVar #5}; return ()}}; return #9}}} {{hard {{throwTo #3 ThreadKilled}; * <- {readMVar #1}; return ()}}; throwIO #5}}; {hard {{throwTo #3 ThreadKilled}; * <- {readMVar #1}; return ()}}; return #5}}; return ()",
    ),
    (
        "main :: IO () = { p <- concurrently { return 1 } { return () }; return () };",
        "* <- {* <- {newEmptyMVar}; * <- {newEmptyMVar}; mask {* <- {fork {* <- {catch {* <- {restore #2 {mask {* <- {catch {* <- {restore #3 {return 1}}; return Right(#4)} {return Left(#4)}}; either #4 {* <- {tryPutMVar #0 Left(#5)}; throwIO #5} {* <- {tryPutMVar #0 Right(())}; return #5}}}}; return Right(#3)} {return Left(#3)}}; putMVar #1 #3}}; let Pair(#3, #1); * <- {catch {restore #2 {* <- {newEmptyMVar}; mask {* <- {fork {* <- {catch {* <- {restore #6 {mask {* <- {catch {* <- {restore #7 {return ()}}; return Right(#8)} {return Left(#8)}}; either #8 {* <- {tryPutMVar #0 Left(#9)}; throwIO #9} {* <- {tryPutMVar #0 Right(())}; return #9}}}}; return Right(#7)} {return Left(#7)}}; putMVar #5 #7}}; let Pair(#7, #5); * <- {catch {restore #6 {* <- {takeMVar #0}; either #9 {throwIO #10} {* <- {let #4; * <- {readMVar Snd(#11)}; either #12 {throwIO #13} {return #13}}; * <- {let #8; * <- {readMVar Snd(#12)}; either #13 {throwIO #14} {return #14}}; return Pair(#11, #12)}}} {{hard {{throwTo #7 ThreadKilled}; * <- {readMVar #5}; return ()}}; throwIO #9}}; {hard {{throwTo #7 ThreadKilled}; * <- {readMVar #5}; return ()}}; return #9}}} {{hard {{throwTo #3 ThreadKilled}; * <- {readMVar #1}; return ()}}; throwIO #5}}; {hard {{throwTo #3 ThreadKilled}; * <- {readMVar #1}; return ()}}; return #5}}; return ()",
    ),
];

/// What is still to be shown.
#[derive(Clone, Copy, Debug)]
enum ShownPiece {
    Act(ActId),
    Block(ActId),
    Expr(ExprId),
    Argument(ExprId),
    Word(&'static str),
    Number(i64),
    Slot(usize),
}

fn push_all(left: &mut Vec<ShownPiece>, pieces: &[ShownPiece]) -> Result<(), Fail> {
    for piece in pieces.iter().rev() {
        left.push(*piece)?;
    }
    Ok(())
}

fn push_arguments(left: &mut Vec<ShownPiece>, ids: &Items<ExprId>) -> Result<(), Fail> {
    for id in ids.as_slice().iter().rev() {
        left.push(ShownPiece::Argument(*id))?;
    }
    Ok(())
}

fn primitive_word(primitive: Primitive) -> &'static str {
    match primitive {
        Primitive::PutStr => "putStr",
        Primitive::PutStrLn => "putStrLn",
        Primitive::HPutStrLn => "hPutStrLn",
        Primitive::NewMVar => "newMVar",
        Primitive::NewEmptyMVar => "newEmptyMVar",
        Primitive::TakeMVar => "takeMVar",
        Primitive::PutMVar => "putMVar",
        Primitive::ReadMVar => "readMVar",
        Primitive::TryTakeMVar => "tryTakeMVar",
        Primitive::TryPutMVar => "tryPutMVar",
        Primitive::MyThreadId => "myThreadId",
        Primitive::GetMaskingState => "getMaskingState",
        Primitive::ClockMicros => "clockMicros",
        Primitive::ThreadDelay => "threadDelay",
        Primitive::ThrowTo => "throwTo",
        Primitive::NewTimeout => "newTimeout",
        Primitive::Acquired => "acquired",
        Primitive::Release => "release",
    }
}

fn exception_word(exn: &Exn) -> &'static str {
    match exn {
        Exn::ThreadKilled => "ThreadKilled",
        Exn::Overflow => "Overflow",
        _ => "another exception",
    }
}

fn unary_word(form: UnaryForm) -> &'static str {
    match form {
        UnaryForm::Just => "Just(",
        UnaryForm::Fst => "Fst(",
        UnaryForm::Snd => "Snd(",
        _ => "another form(",
    }
}

fn side_word(form: SideForm) -> &'static str {
    match form {
        SideForm::Left => "Left(",
        SideForm::Right => "Right(",
    }
}

fn binary_word(form: BinaryForm) -> &'static str {
    match form {
        BinaryForm::Less => "Less(",
        BinaryForm::Equal => "Equal(",
        BinaryForm::Pair => "Pair(",
        _ => "another form(",
    }
}

/// Shows an expression, or puts its parts in front of what is left.
fn show_expr(left: &mut Vec<ShownPiece>, text: &mut String, node: &Node) -> Result<(), Fail> {
    use ShownPiece::{Expr, Number, Slot, Word};
    match node {
        Node::Int(n) => left.push(Number(*n))?,
        Node::Text(letters) => {
            text.push_str("\"")?;
            text.push_str(letters.as_str())?;
            text.push_str("\"")?;
        }
        Node::Exn(exn) => text.push_str(exception_word(exn))?,
        Node::Unit => text.push_str("()")?,
        Node::Empty(EmptyForm::Nothing) => text.push_str("Nothing")?,
        Node::Slot(k) => left.push(Slot(*k))?,
        Node::Unary(form, a) => push_all(left, &[Word(unary_word(*form)), Expr(*a), Word(")")])?,
        Node::Side(form, a) => push_all(left, &[Word(side_word(*form)), Expr(*a), Word(")")])?,
        Node::Binary(form, a, b) => push_all(
            left,
            &[
                Word(binary_word(*form)),
                Expr(*a),
                Word(", "),
                Expr(*b),
                Word(")"),
            ],
        )?,
        Node::Chain(a, links) => {
            for link in links.as_slice().iter().rev() {
                push_all(left, &[Word(" + "), Expr(link.operand)])?;
            }
            left.push(Expr(*a))?;
        }
        _ => text.push_str("another expression")?,
    }
    Ok(())
}

/// Puts the parts of an action in front of what is left.
fn show_act(left: &mut Vec<ShownPiece>, act: &Act) -> Result<(), Fail> {
    use ShownPiece::{Argument, Block, Expr, Number, Slot, Word};
    match act {
        Act::Return(e) => push_all(left, &[Word("return"), Argument(*e)]),
        Act::Throw(e) => push_all(left, &[Word("throwIO"), Argument(*e)]),
        Act::Let(e, a) => push_all(
            left,
            &[Word("let "), Expr(*e), Word("; "), ShownPiece::Act(*a)],
        ),
        Act::Bind(a, b) => push_all(
            left,
            &[Word("* <-"), Block(*a), Word("; "), ShownPiece::Act(*b)],
        ),
        Act::Then(a, b) => push_all(
            left,
            &[
                Word("{"),
                ShownPiece::Act(*a),
                Word("}; "),
                ShownPiece::Act(*b),
            ],
        ),
        Act::If(e, a, b) => push_all(left, &[Word("if"), Argument(*e), Block(*a), Block(*b)]),
        Act::CaseMaybe(e, a, b) => push_all(
            left,
            &[Word("maybe"), Argument(*e), Block(*a), Block(*b)],
        ),
        Act::CaseEither(e, a, b) => push_all(
            left,
            &[Word("either"), Argument(*e), Block(*a), Block(*b)],
        ),
        Act::CaseList(e, a, b) => push_all(
            left,
            &[Word("list"), Argument(*e), Block(*a), Block(*b)],
        ),
        Act::CasePair(e, a) => push_all(left, &[Word("pair"), Argument(*e), Block(*a)]),
        Act::Call(f, es) => {
            push_arguments(left, es)?;
            push_all(left, &[Word("call "), Number(i64::from(*f))])
        }
        Act::Perform(primitive, es) => {
            push_arguments(left, es)?;
            push_all(left, &[Word(primitive_word(*primitive))])
        }
        Act::Fork(a) => push_all(left, &[Word("fork"), Block(*a)]),
        Act::ForkUnmask(a) => push_all(left, &[Word("forkUnmask"), Block(*a)]),
        Act::Catch(a, b) => push_all(left, &[Word("catch"), Block(*a), Block(*b)]),
        Act::Mask(a) => push_all(left, &[Word("mask"), Block(*a)]),
        Act::UninterruptibleMask(a) => push_all(left, &[Word("hard"), Block(*a)]),
        Act::Restore(k, a) => push_all(left, &[Word("restore "), Slot(*k), Block(*a)]),
    }
}

/// Shows the body of `main`.
fn shown(alloc: Global, body: &CodeBody) -> Result<String, Fail> {
    let mut left = Vec::new(alloc);
    let mut text = String::new(alloc);
    left.push(ShownPiece::Act(body.main))?;
    for _ in 0..10_000u32 {
        match left.pop() {
            None => break,
            Some(ShownPiece::Word(word)) => text.push_str(word)?,
            Some(ShownPiece::Number(n)) => {
                let number = format!(in alloc; "{}", n)?;
                text.push_str(number.as_str())?;
            }
            Some(ShownPiece::Slot(k)) => {
                let slot = format!(in alloc; "#{}", k)?;
                text.push_str(slot.as_str())?;
            }
            Some(ShownPiece::Argument(e)) => push_all(
                &mut left,
                &[ShownPiece::Word(" "), ShownPiece::Expr(e)],
            )?,
            Some(ShownPiece::Block(a)) => push_all(
                &mut left,
                &[
                    ShownPiece::Word(" {"),
                    ShownPiece::Act(a),
                    ShownPiece::Word("}"),
                ],
            )?,
            Some(ShownPiece::Expr(e)) => {
                if let Some(node) = body.nodes.get(e.0) {
                    show_expr(&mut left, &mut text, node)?;
                }
            }
            Some(ShownPiece::Act(a)) => {
                if let Some(act) = body.acts.get(a.0) {
                    show_act(&mut left, act)?;
                }
            }
        }
    }
    Ok(text)
}

/// The code of a script, or nothing where the script is refused.
fn code_of(alloc: Global, script: &[u8]) -> Result<Option<Code>, Fail> {
    if script.len() > 1_048_576 {
        return Ok(None);
    }
    let Ok(tokens) = lex(alloc, script) else {
        return Ok(None);
    };
    let Ok(script) = parse(alloc, &tokens) else {
        return Ok(None);
    };
    let Ok(checked) = check(alloc, script) else {
        return Ok(None);
    };
    Ok(Some(expand(alloc, &checked)?))
}

/// The body of a script's `main` as it is shown.
fn expanded(alloc: Global, script: &str) -> Result<String, Fail> {
    match code_of(alloc, script.as_bytes())? {
        None => Ok(String::new(alloc)),
        Some(code) => shown(alloc, &code.body),
    }
}

#[test]
fn scripts_expand_by_the_table(rt: HostRuntime) -> Result<(), Fail> {
    let alloc = rt.alloc();
    for (script, body) in ROWS {
        assert_eq!(rt; expanded(alloc, script)?.as_str(), body, "{script}");
    }
    Ok(())
}

#[test]
fn a_value_is_pushed(rt: HostRuntime) -> Result<(), Fail> {
    let mut values = Values::new(rt.alloc());
    assert!(rt; values.push(Value::Int(7)).is_ok());
    assert_eq!(rt; values.len(), 1);
    assert!(rt; matches!(values.get(0), Some(Value::Int(7))));
    Ok(())
}
