//! Where the parts of a tree stand.

use hs_base::{Body, Expr, Pos, Script};
use hs_lex::lex;
use hs_parse::parse;
use std::test::Fail;

/// Whether the only definition is a 7 in the twelfth column.
fn is_seven(script: &Script) -> bool {
    match script.defs.as_slice() {
        [def] => matches!(
            &def.body,
            Body::Pure(_, Expr::Int(Pos { line: 1, col: 12 }, 7))
        ),
        _ => false,
    }
}

#[test]
fn a_tree_has_its_parts_at_their_places(rt: HostRuntime) -> Result<(), Fail> {
    let alloc = rt.alloc();
    let Ok(tokens) = lex(alloc, b"x :: Int = 7;") else {
        assert!(rt; false, "no tokens");
        return Ok(());
    };
    let Ok(script) = parse(alloc, &tokens) else {
        assert!(rt; false, "no script");
        return Ok(());
    };
    assert!(rt; is_seven(&script));
    Ok(())
}
