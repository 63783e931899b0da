//! Rows of tokens: texts, and the tokens that they have, with their places.

use hs_base::Pos;
use hs_lex::{LexFault, lex};
use rules_tokens::{Tok, Token, Tokens};
use std::alloc::Global;
use std::test::Fail;

/// How a token is written in the rows below: what it is, its line and column, and its bytes.
fn show_token(alloc: Global, token: &Token) -> Result<String, Fail> {
    let Pos { line, col } = token.pos;
    let (start, end) = (token.start, token.end);
    let what = match &token.tok {
        Tok::Name(text) => format!(in alloc; "name {}", text.as_str())?,
        Tok::Upper => format!(in alloc; "upper")?,
        Tok::Int(value) => format!(in alloc; "int {value}")?,
        Tok::Text(text) => format!(in alloc; "text {}", text.as_str())?,
        Tok::Word(number) => format!(in alloc; "word {number}")?,
        Tok::Sym(number) => format!(in alloc; "sym {number}")?,
    };
    Ok(format!(in alloc; "{what} at {line}:{col} from {start} to {end}; ")?)
}

fn show_tokens(alloc: Global, tokens: &Tokens) -> Result<String, Fail> {
    let mut shown = String::new(alloc);
    for token in tokens.list.as_slice() {
        shown.push_str(show_token(alloc, token)?.as_str())?;
    }
    let Pos { line, col } = tokens.end;
    shown.push_str(format!(in alloc; "end at {line}:{col}")?.as_str())?;
    Ok(shown)
}

/// The answer at these bytes, written out.
fn shown(alloc: Global, bytes: &[u8]) -> Result<String, Fail> {
    if bytes.len() >= 4_294_967_295 {
        return Ok(format!(in alloc; "too long")?);
    }
    let (name, at) = match lex(alloc, bytes) {
        Ok(tokens) => return show_tokens(alloc, &tokens),
        Err(LexFault::NoMemory) => return Ok(format!(in alloc; "no memory")?),
        Err(LexFault::NotUtf8(at)) => ("NotUtf8", at),
        Err(LexFault::BadChar(at)) => ("BadChar", at),
        Err(LexFault::OpenText(at)) => ("OpenText", at),
        Err(LexFault::BigNumber(at)) => ("BigNumber", at),
    };
    Ok(format!(in alloc; "{name} at {}:{}", at.line, at.col)?)
}

#[test]
fn texts_have_their_tokens(rt: HostRuntime) -> Result<(), Fail> {
    let rows: [(&[u8], &str); 26] = [
        (b"", "end at 1:1"),
        (b"-- only a comment", "end at 1:18"),
        (b"-- a comment\n", "end at 2:1"),
        (b"--", "end at 1:3"),
        (
            b"x--y\n--\nz",
            "name x at 1:1 from 0 to 1; name z at 3:1 from 8 to 9; end at 3:2",
        ),
        (
            b"<--x",
            "sym 2 at 1:1 from 0 to 2; sym 14 at 1:3 from 2 to 3; name x at 1:4 from 3 to 4; end at 1:5",
        ),
        (b"-->", "end at 1:4"),
        (
            b"->-",
            "sym 1 at 1:1 from 0 to 2; sym 14 at 1:3 from 2 to 3; end at 1:4",
        ),
        (
            b":::",
            "sym 0 at 1:1 from 0 to 2; sym 16 at 1:3 from 2 to 3; end at 1:4",
        ),
        (
            b"<=<-<",
            "sym 5 at 1:1 from 0 to 2; sym 2 at 1:3 from 2 to 4; sym 11 at 1:5 from 4 to 5; end at 1:6",
        ),
        (
            b"===",
            "sym 3 at 1:1 from 0 to 2; sym 10 at 1:3 from 2 to 3; end at 1:4",
        ),
        (
            b"+++",
            "sym 9 at 1:1 from 0 to 2; sym 13 at 1:3 from 2 to 3; end at 1:4",
        ),
        (
            b"mask mask_ mask__",
            "word 56 at 1:1 from 0 to 4; word 57 at 1:6 from 5 to 10; name mask__ at 1:12 from 11 to 17; end at 1:18",
        ),
        (
            b"timeout finally'",
            "word 64 at 1:1 from 0 to 7; name finally' at 1:9 from 8 to 16; end at 1:17",
        ),
        (
            b"True if x'y' _ _1",
            "word 0 at 1:1 from 0 to 4; word 20 at 1:6 from 5 to 7; name x'y' at 1:9 from 8 to 12; name _ at 1:14 from 13 to 14; name _1 at 1:16 from 15 to 17; end at 1:18",
        ),
        (
            b"Z Zed aZ",
            "upper at 1:1 from 0 to 1; upper at 1:3 from 2 to 5; name aZ at 1:7 from 6 to 8; end at 1:9",
        ),
        (
            b"007 9223372036854775807",
            "int 7 at 1:1 from 0 to 3; int 9223372036854775807 at 1:5 from 4 to 23; end at 1:24",
        ),
        (
            b"12ab",
            "int 12 at 1:1 from 0 to 2; name ab at 1:3 from 2 to 4; end at 1:5",
        ),
        (
            b"\"x -- \\\"y\\\\\"-- end",
            "text x -- \"y\\ at 1:1 from 0 to 12; end at 1:19",
        ),
        (
            b"\"\\n\\t\"\"\"",
            "text \n\t at 1:1 from 0 to 6; text  at 1:7 from 6 to 8; end at 1:9",
        ),
        (
            b"a\tb\r\nc",
            "name a at 1:1 from 0 to 1; name b at 1:3 from 2 to 3; name c at 2:1 from 5 to 6; end at 2:2",
        ),
        (
            "\u{3b1}\u{3b2} \u{416}\u{44f}".as_bytes(),
            "name \u{3b1}\u{3b2} at 1:1 from 0 to 4; name \u{416}\u{44f} at 1:4 from 5 to 9; end at 1:6",
        ),
        (
            "\u{4e2d}\u{6587}'".as_bytes(),
            "name \u{4e2d}\u{6587}' at 1:1 from 0 to 7; end at 1:4",
        ),
        (
            "e\u{301} x".as_bytes(),
            "name e\u{301} at 1:1 from 0 to 3; name x at 1:4 from 4 to 5; end at 1:5",
        ),
        (
            "\u{c9}a".as_bytes(),
            "name \u{c9}a at 1:1 from 0 to 3; end at 1:3",
        ),
        (
            "\"\u{1f600}\" x".as_bytes(),
            "text \u{1f600} at 1:1 from 0 to 6; name x at 1:5 from 7 to 8; end at 1:6",
        ),
    ];
    for (bytes, want) in rows {
        assert_eq!(rt; shown(rt.alloc(), bytes)?.as_str(), want);
    }
    Ok(())
}
