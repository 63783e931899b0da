ghost use Rattle.std.specs.Prelude.{◌≡◌, ◌<◌, ◌≤◌, length, OnOk, [], ◌∷◌, map as list_map};
ghost use Rattle.rules_grammar.specs.Grammar as g;
ghost use Rattle.rules_grammar.specs.GrammarForms.{Rule};
ghost use Rattle.rules_grammar.specs.GrammarKinds as k;
ghost use Rattle.rules_grammar.specs.GrammarParts.{TokenKind, OpenerPart};
ghost use Rattle.hs_grammar.specs.Parser as parser;
ghost use Rattle.parse_leaves.specs.Reads.{Reads};

use crate::cursor::Cursor;
use crate::halt::Halt;
use hs_base::{CompareOp, ConsOp, Expr, Name, Pos, SumOp};
use rules_tokens::{Tok, Token, symbol};
use std::alloc::Global;

impl<'a> Cursor<'a> {
    pub fn int(&mut self) -> Result<Expr, Halt>
        ensures reads { Reads (parser.take TokenKind.int (λ t. parser.done (Expr.Int t.pos (g.number_of t.tok))) self.old) result self.new }
        ensures shorter { OnOk result (length self.new < length self.old) }
    {
        if let Some(token) = self.peek() {
            if let Tok::Int(number) = &token.tok {
                self.skip();
                return Ok(Expr::Int(token.pos, *number));
            }
        }
        Err(self.unexpected())
    }

    pub fn text(&mut self, alloc: Global) -> Result<Expr, Halt>
        ensures reads { Reads (parser.take TokenKind.text (λ t. parser.done (Expr.Text t.pos (g.text_of t.tok))) self.old) result self.new }
        ensures shorter { OnOk result (length self.new < length self.old) }
    {
        if let Some(token) = self.peek() {
            if let Tok::Text(text) = &token.tok {
                let text = text.copy(alloc)?;
                self.skip();
                return Ok(Expr::Text(token.pos, text));
            }
        }
        Err(self.unexpected())
    }

    pub fn constant(&mut self, depth: u32) -> Result<Expr, Halt>
        ensures reads { Reads (parser.read_then (parser.enter depth) g.constant_word (λ c. parser.done (Expr.Constant c.1 c.0)) self.old) result self.new }
        ensures shorter { OnOk result (length self.new < length self.old) }
    {
        let word = self.constant_word(depth)?;
        Ok(Expr::Constant(word.1, word.0))
    }

    /// Whether the next token begins one.
    pub fn at_sum_operator(&self) -> bool
        ensures { result ≡ parser.begins (parser.firsts g.sum_link) self.now }
    {
        self.at_any_symbol(&[symbol::PLUS, symbol::MINUS])
    }

    /// Whether the next token begins one.
    pub fn at_cons_operator(&self) -> bool
        ensures { result ≡ parser.begins (parser.firsts g.cons_link) self.now }
    {
        self.at_any_symbol(&[symbol::COLON, symbol::PLUS_PLUS])
    }

    /// Whether the next token begins one.
    pub fn at_compare_operator(&self) -> bool
        ensures { result ≡ parser.begins (parser.firsts g.compare_end) self.now }
    {
        self.at_any_symbol(&[
            symbol::EQUAL_EQUAL,
            symbol::SLASH_EQUAL,
            symbol::LESS,
            symbol::LESS_EQUAL,
            symbol::GREATER,
            symbol::GREATER_EQUAL,
        ])
    }

    /// Whether the next token is one of these symbols.
    pub fn at_any_symbol(&self, symbols: &[u8]) -> bool
        ensures { result ≡ parser.begins (list_map TokenKind.symbol symbols.now) self.now }
    {
        'symbols: for symbol in symbols {
            if self.at_symbol(*symbol) {
                return true;
            }
        }
        false
    }

    /// Whether the next token begins an argument.
    pub fn at_arg(&self) -> bool
        ensures { result ≡ parser.begins (parser.firsts g.arg) self.now }
    {
        if self.at_name() {
            return true;
        }
        if self.at_symbol(symbol::OPEN_BRACKET) {
            return true;
        }
        if self.at_int() {
            return true;
        }
        if self.at_text() {
            return true;
        }
        if self.at_constant() {
            return true;
        }
        self.at_symbol(symbol::OPEN_PAREN)
    }

    /// An operator and its position.
    pub fn sum_operator(&mut self, depth: u32) -> Result<(SumOp, Pos), Halt>
        ensures reads { Reads (parser.read (parser.enter depth) g.sum_operator self.old) result self.new }
        ensures shorter { OnOk result (length self.new < length self.old) }
    {
        if self.at_symbol(symbol::PLUS) {
            return self.operator(symbol::PLUS, SumOp::Plus);
        }
        self.operator(symbol::MINUS, SumOp::Minus)
    }

    /// An operator and its position.
    pub fn cons_operator(&mut self, depth: u32) -> Result<(ConsOp, Pos), Halt>
        ensures reads { Reads (parser.read (parser.enter depth) g.cons_operator self.old) result self.new }
        ensures shorter { OnOk result (length self.new < length self.old) }
    {
        if self.at_symbol(symbol::COLON) {
            return self.operator(symbol::COLON, ConsOp::Cons);
        }
        self.operator(symbol::PLUS_PLUS, ConsOp::Append)
    }

    /// An operator and its position.
    pub fn compare_operator(&mut self, depth: u32) -> Result<(CompareOp, Pos), Halt>
        ensures reads { Reads (parser.read (parser.enter depth) g.compare_operator self.old) result self.new }
        ensures shorter { OnOk result (length self.new < length self.old) }
    {
        if self.at_symbol(symbol::EQUAL_EQUAL) {
            return self.operator(symbol::EQUAL_EQUAL, CompareOp::Equal);
        }
        if self.at_symbol(symbol::SLASH_EQUAL) {
            return self.operator(symbol::SLASH_EQUAL, CompareOp::Unequal);
        }
        if self.at_symbol(symbol::LESS) {
            return self.operator(symbol::LESS, CompareOp::Less);
        }
        if self.at_symbol(symbol::LESS_EQUAL) {
            return self.operator(symbol::LESS_EQUAL, CompareOp::AtMost);
        }
        if self.at_symbol(symbol::GREATER) {
            return self.operator(symbol::GREATER, CompareOp::Greater);
        }
        self.operator(symbol::GREATER_EQUAL, CompareOp::AtLeast)
    }

    /// This symbol, as this operator.
    fn operator<T: Copy>(&mut self, symbol: u8, operator: T) -> Result<(T, Pos), Halt>
        ensures reads { Reads (parser.take (TokenKind.symbol symbol) (λ t. parser.done (operator, t.pos)) self.old) result self.new }
        ensures shorter { OnOk result (length self.new < length self.old) }
    {
        let pos = self.symbol(symbol)?;
        Ok((operator, pos))
    }

    /// A `;`, if there is one.
    pub fn semicolon(&mut self, depth: u32) -> Result<(), Halt>
        ensures reads { Reads (parser.read (parser.enter depth) (g.optional_semicolon) self.old) result self.new }
        ensures shorter { OnOk result (length self.new ≤ length self.old) }
    {
        if self.at_symbol(symbol::SEMICOLON) {
            self.symbol(symbol::SEMICOLON)?;
            return Ok(());
        }
        Ok(())
    }

    /// The pattern `[]`.
    pub fn empty_brackets(&mut self, depth: u32) -> Result<(), Halt>
        ensures reads { Reads (parser.read (parser.enter depth) (Rule.within (λ p u. u) k.open_bracket OpenerPart.no_items) self.old) result self.new }
        ensures shorter { OnOk result (length self.new < length self.old) }
    {
        self.open_symbol(symbol::OPEN_BRACKET, depth)?;
        self.close_bracket(depth - 1)
    }

    fn close_bracket(&mut self, depth: u32) -> Result<(), Halt>
        ensures reads { Reads (parser.read (parser.enter depth) (g.rule_of OpenerPart.no_items) self.old) result self.new }
        ensures shorter { OnOk result (length self.new < length self.old) }
    {
        self.symbol(symbol::CLOSE_BRACKET)?;
        Ok(())
    }

    /// The pattern `(x, y)`.
    pub fn name_pair(&mut self, alloc: Global, depth: u32) -> Result<(Name, Name), Halt>
        ensures reads { Reads (parser.read (parser.enter depth) (Rule.within (λ p names. names) k.open_paren OpenerPart.two_names) self.old) result self.new }
        ensures shorter { OnOk result (length self.new < length self.old) }
    {
        self.open_symbol(symbol::OPEN_PAREN, depth)?;
        self.two_names(alloc, depth - 1)
    }

    fn two_names(&mut self, alloc: Global, depth: u32) -> Result<(Name, Name), Halt>
        ensures reads { Reads (parser.read (parser.enter depth) (g.rule_of OpenerPart.two_names) self.old) result self.new }
        ensures shorter { OnOk result (length self.new < length self.old) }
    {
        let first = self.name(alloc)?;
        self.symbol(symbol::COMMA)?;
        let second = self.name(alloc)?;
        self.symbol(symbol::CLOSE_PAREN)?;
        Ok((first, second))
    }
}
