use hs_base::{Pos, Txt};
use hs_items::Items;

/// What a token is.
#[derive(Debug, Drop)]
pub enum Tok {
    /// A name, with its text.
    Name(Txt),
    /// A word that begins with A to Z and isn't reserved. No production uses it.
    Upper,
    /// A number.
    Int(i64),
    /// A text literal, with the text that it stands for.
    Text(Txt),
    /// A reserved word, by its number in `word`.
    Word(u8),
    /// A symbol, by its number in `symbol`.
    Sym(u8),
}

/// A token and where it stands. Its text is the bytes of the source from `start` up to `end`.
#[derive(Debug, Drop)]
pub struct Token {
    pub tok: Tok,
    pub start: u32,
    pub end: u32,
    pub pos: Pos,
}

/// The tokens of a script in their order, its text, and the position after its last byte.
#[derive(Debug, Drop)]
pub struct Tokens {
    pub list: Items<Token>,
    pub source: Txt,
    pub end: Pos,
}
