//! What is written.
use hs_rules::{Entry, History};
use std::test::Fail;
use trace_text::{split, write_trace};

#[test]
fn each_kind_of_entry_has_its_line(rt: HostRuntime) -> Result<(), Fail> {
    let mut history = History::new(rt.alloc());
    history.push(Entry::Local { t: 0, k: 12 })?;
    history.push(Entry::Op { t: 0 })?;
    history.push(Entry::Receive { t: 1 })?;
    history.push(Entry::Tick {
        at: 18446744073709551615,
    })?;
    history.push(Entry::Wake { t: 4294967295 })?;
    history.push(Entry::Stranded)?;
    history.push(Entry::Finish { t: 0 })?;
    let text = write_trace(rt.alloc(), &history)?;
    assert_eq!(rt;
        text.as_str(),
        "conc-trace 1\nL 0 12\nO 0\nR 1\nT 18446744073709551615\nW 4294967295\nS\nF 0\n"
    );
    Ok(())
}

#[test]
fn a_document_parts_at_its_first_script_line(rt: HostRuntime) -> Result<(), Fail> {
    assert_eq!(rt;
        split(b"conc-trace 1\nO 0\nscript\nmain\nscript\n"),
        Some((17, 24))
    );
    assert_eq!(rt; split(b"conc-trace 1\nscript \nscript"), None);
    Ok(())
}
