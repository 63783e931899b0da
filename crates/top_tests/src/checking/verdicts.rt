//! What the check answers of traces of one script.
use hs_compile::compile;
use std::alloc::Global;
use std::test::Fail;
use trace_checker::{Reached, RunFault, Verified, check_run};

const HELLO: &[u8] = b"main :: IO () = { putStrLn \"hello\" };";

/// What the check answers of a trace; nothing where the script is none.
fn verdict(alloc: Global, trace: &[u8]) -> Option<Result<Verified, RunFault>> {
    let code = compile(alloc, HELLO).ok()?;
    Some(check_run(alloc, &code, trace))
}

/// The run is verified, and has so many entries and steps, and this end.
fn is_verified(alloc: Global, trace: &[u8], entries: u32, steps: u32, end: Reached) -> bool {
    match verdict(alloc, trace) {
        Some(Ok(found)) => found.entries == entries && found.steps == steps && found.end == end,
        _ => false,
    }
}

/// It isn't, for this cause.
fn is_refused(alloc: Global, trace: &[u8], fault: RunFault) -> bool {
    match verdict(alloc, trace) {
        Some(Err(found)) => found == fault,
        _ => false,
    }
}

#[test]
fn runs_are_verified(rt: HostRuntime) -> Result<(), Fail> {
    let alloc = rt.alloc();
    assert!(rt; is_verified(alloc, b"conc-trace 1\n", 0, 0, Reached::Open));
    assert!(rt; is_verified(alloc, b"conc-trace 1\nL 0 1\nO 0\n", 2, 2, Reached::Open));
    assert!(rt;
        is_verified(
            alloc,
            b"conc-trace 1\nL 0 1\nO 0\nF 0\n",
            3,
            3,
            Reached::Done
        )
    );
    assert!(rt;
        is_verified(
            alloc,
            b"conc-trace 1\nT 7\nL 0 1\nT 7\nO 0\nF 0\n",
            5,
            5,
            Reached::Done
        )
    );
    Ok(())
}

#[test]
fn what_is_not_legal_is_refused(rt: HostRuntime) -> Result<(), Fail> {
    let alloc = rt.alloc();
    assert!(rt; is_refused(alloc, b"conc-trace 1\nL 0 0\n", RunFault::Illegal(2)));
    assert!(rt;
        is_refused(
            alloc,
            b"conc-trace 1\nL 0 1\nO 0\nO 0\n",
            RunFault::Illegal(4)
        )
    );
    assert!(rt;
        is_refused(
            alloc,
            b"conc-trace 1\nL 0 1\nO 0\nF 0\nT 1\n",
            RunFault::Illegal(5)
        )
    );
    assert!(rt; is_refused(alloc, b"conc-trace 1\nT 7\nT 6\n", RunFault::Illegal(3)));
    assert!(rt; is_refused(alloc, b"conc-trace 1\nL 0 4000001\n", RunFault::Long(2)));
    Ok(())
}

#[test]
fn what_is_no_trace_is_refused(rt: HostRuntime) -> Result<(), Fail> {
    let alloc = rt.alloc();
    assert!(rt; is_refused(alloc, b"", RunFault::Spelling(1)));
    assert!(rt; is_refused(alloc, b"L 0 1\n", RunFault::Spelling(1)));
    assert!(rt; is_refused(alloc, b"conc-trace 1\nL 0 01\n", RunFault::Spelling(2)));
    assert!(rt; is_refused(alloc, b"conc-trace 1\nL 0 1\nO 0", RunFault::Spelling(3)));
    Ok(())
}
