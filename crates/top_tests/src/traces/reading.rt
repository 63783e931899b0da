//! What is read.
use hs_rules::Entry;
use std::test::Fail;
use trace_text::{Line, Lines};

/// The number of the first line that is none of a trace, or 0.
fn first_fault(text: &[u8]) -> usize {
    let Some(mut lines) = Lines::of(text) else {
        return 1;
    };
    for _ in 0..text.len() {
        match lines.next() {
            Line::Entry(_) => {}
            Line::Spelling(line) => return line,
            Line::End => return 0,
        }
    }
    0
}

#[test]
fn lines_give_their_entries(rt: HostRuntime) -> Result<(), Fail> {
    let begun = Lines::of(b"conc-trace 1\nL 0 2\nT 7\n");
    assert!(rt; begun.is_some());
    let Some(mut lines) = begun else {
        return Ok(());
    };
    assert!(rt; matches!(lines.next(), Line::Entry(Entry::Local { t: 0, k: 2 })));
    assert!(rt; matches!(lines.next(), Line::Entry(Entry::Tick { at: 7 })));
    assert!(rt; matches!(lines.next(), Line::End));
    Ok(())
}

#[test]
fn the_first_misspelled_line_is_named(rt: HostRuntime) -> Result<(), Fail> {
    assert_eq!(rt; first_fault(b"conc-trace 1\nL 0 0\nS\n"), 0);
    assert_eq!(rt; first_fault(b""), 1);
    assert_eq!(rt; first_fault(b"conc-trace 2\n"), 1);
    assert_eq!(rt; first_fault(b"conc-trace 1\nL 0 01\n"), 2);
    assert_eq!(rt; first_fault(b"conc-trace 1\nO 0\nO 4294967296\n"), 3);
    assert_eq!(rt; first_fault(b"conc-trace 1\nO 0\nO  0\n"), 3);
    assert_eq!(rt; first_fault(b"conc-trace 1\nO 0\nS"), 3);
    assert_eq!(rt; first_fault(b"conc-trace 1\nT 18446744073709551616\n"), 2);
    Ok(())
}
