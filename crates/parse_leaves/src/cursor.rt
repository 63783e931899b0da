ghost use Rattle.std.specs.Prelude.{◌≡◌, ◌<◌, ◌≤◌, length, drop, ◌∷◌, [], OnOk, option_copied};
ghost use Rattle.rules_grammar.specs.GrammarParts.{TokenKind};
ghost use Rattle.hs_grammar.specs.Parser as parser;
ghost use Rattle.rules_grammar.specs.Grammar as grammar;
ghost use Rattle.parse_leaves.specs.Reads.{Reads, head_of, open_at};

use crate::halt::Halt;
use hs_base::{Constant, Expr, Name, Pos};
use rules_tokens::{Tok, Token};
use std::alloc::Global;
use std::marker::Model;

/// The tokens that are left. Contracts see their list.
#[derive(Drop)]
pub struct Cursor<'a> {
    left: &'a [Token],
}

impl<'a> Model for Cursor<'a> {
    ghost use Rattle.std.specs.Prelude.{List};
    ghost use Rattle.rules_tokens.specs.declared.token.Token.{Token};

    ghost Value = { List Token };

    ghost view = { λ c. c.left.now };
}

impl<'a> Cursor<'a> {
    pub fn new(left: &'a [Token]) -> Cursor<'a>
        ensures { result ≡ left.now }
    {
        Cursor { left }
    }

    pub fn peek(&self) -> Option<&'a Token>
        ensures { option_copied result ≡ head_of self.now }
    {
        self.left.first()
    }

    pub fn skip(&mut self)
        requires { 0 < length self.old }
        ensures { self.new ≡ drop 1 self.old }
    {
        self.left = &self.left[1..];
    }

    pub fn unexpected(&self) -> Halt
        ensures { result ≡ Halt.Unexpected (length self.now) }
    {
        Halt::Unexpected(self.left.len())
    }

    fn too_deep(&self) -> Halt
        ensures { result ≡ Halt.TooDeep (length self.now) }
    {
        Halt::TooDeep(self.left.len())
    }

    /// Whether the next token is this symbol.
    pub fn at_symbol(&self, symbol: u8) -> bool
        ensures { result ≡ parser.begins (TokenKind.symbol symbol ∷ []) self.now }
    {
        matches!(self.peek(), Some(Token { tok: Tok::Sym(s), .. }) if *s == symbol)
    }

    /// Whether the next token is this reserved word.
    pub fn at_word(&self, word: u8) -> bool
        ensures { result ≡ parser.begins (TokenKind.word word ∷ []) self.now }
    {
        matches!(self.peek(), Some(Token { tok: Tok::Word(w), .. }) if *w == word)
    }

    /// Whether the next token is a name.
    pub fn at_name(&self) -> bool
        ensures { result ≡ parser.begins (TokenKind.name ∷ []) self.now }
    {
        matches!(
            self.peek(),
            Some(Token {
                tok: Tok::Name(_),
                ..
            })
        )
    }

    /// A symbol, for its position.
    pub fn symbol(&mut self, symbol: u8) -> Result<Pos, Halt>
        ensures reads { Reads (parser.take (TokenKind.symbol symbol) (λ t. parser.done t.pos) self.old) result self.new }
        ensures shorter { OnOk result (length self.new < length self.old) }
    {
        if let Some(token) = self.peek() {
            if let Tok::Sym(s) = &token.tok {
                if *s == symbol {
                    self.skip();
                    return Ok(token.pos);
                }
            }
        }
        Err(self.unexpected())
    }

    /// A reserved word, for its position.
    pub fn word(&mut self, word: u8) -> Result<Pos, Halt>
        ensures reads { Reads (parser.take (TokenKind.word word) (λ t. parser.done t.pos) self.old) result self.new }
        ensures shorter { OnOk result (length self.new < length self.old) }
    {
        if let Some(token) = self.peek() {
            if let Tok::Word(w) = &token.tok {
                if *w == word {
                    self.skip();
                    return Ok(token.pos);
                }
            }
        }
        Err(self.unexpected())
    }

    /// A symbol that opens, where a level is left for it.
    pub fn open_symbol(&mut self, symbol: u8, depth: u32) -> Result<Pos, Halt>
        ensures reads { Reads (open_at depth (TokenKind.symbol symbol) self.old) result self.new }
        ensures shorter { OnOk result (length self.new < length self.old) }
        ensures level { OnOk result (0 < depth) }
    {
        if let Some(token) = self.peek() {
            if let Tok::Sym(s) = &token.tok {
                if *s == symbol {
                    if depth == 0 {
                        return Err(self.too_deep());
                    }
                    self.skip();
                    return Ok(token.pos);
                }
            }
        }
        Err(self.unexpected())
    }

    /// A word that opens, where a level is left for it.
    pub fn open_word(&mut self, word: u8, depth: u32) -> Result<Pos, Halt>
        ensures reads { Reads (open_at depth (TokenKind.word word) self.old) result self.new }
        ensures shorter { OnOk result (length self.new < length self.old) }
        ensures level { OnOk result (0 < depth) }
    {
        if let Some(token) = self.peek() {
            if let Tok::Word(w) = &token.tok {
                if *w == word {
                    if depth == 0 {
                        return Err(self.too_deep());
                    }
                    self.skip();
                    return Ok(token.pos);
                }
            }
        }
        Err(self.unexpected())
    }

    /// A name.
    pub fn name(&mut self, alloc: Global) -> Result<Name, Halt>
        ensures reads { Reads (parser.take TokenKind.name (λ t. parser.done (record { text = grammar.text_of t.tok; pos = t.pos })) self.old) result self.new }
        ensures shorter { OnOk result (length self.new < length self.old) }
    {
        if let Some(token) = self.peek() {
            if let Tok::Name(text) = &token.tok {
                let text = text.copy(alloc)?;
                self.skip();
                return Ok(Name {
                    text,
                    pos: token.pos,
                });
            }
        }
        Err(self.unexpected())
    }

    /// Whether the next token is so.
    pub fn at_int(&self) -> bool
        ensures { result ≡ parser.begins (TokenKind.int ∷ []) self.now }
    {
        matches!(
            self.peek(),
            Some(Token {
                tok: Tok::Int(_),
                ..
            })
        )
    }

    /// Whether the next token is so.
    pub fn at_text(&self) -> bool
        ensures { result ≡ parser.begins (TokenKind.text ∷ []) self.now }
    {
        matches!(
            self.peek(),
            Some(Token {
                tok: Tok::Text(_),
                ..
            })
        )
    }
}
