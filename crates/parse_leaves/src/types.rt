ghost use Rattle.std.specs.Prelude.{◌≡◌, ◌<◌, ◌≤◌, length, OnOk};
ghost use Rattle.rules_grammar.specs.Grammar as g;
ghost use Rattle.rules_grammar.specs.GrammarForms.{Rule};
ghost use Rattle.rules_grammar.specs.GrammarKinds as k;
ghost use Rattle.rules_grammar.specs.GrammarParts.{TokenKind, OpenerPart};
ghost use Rattle.hs_grammar.specs.Parser as parser;
ghost use Rattle.parse_leaves.specs.Reads.{Reads};

use crate::cursor::Cursor;
use crate::halt::Halt;
use hs_base::tree::forms::SideForm;
use hs_base::{Pos, Ty, Written};
use hs_items::Boxed;
use rules_tokens::{symbol, word};
use std::alloc::Global;

impl<'a> Cursor<'a> {
    #[cycle(types)]
    pub fn atype(&mut self, alloc: Global, depth: u32) -> Result<Written, Halt>
        ensures reads { Reads (parser.read (parser.enter depth) g.atype self.old) result self.new }
        ensures shorter { OnOk result (length self.new < length self.old) }
    {
        if self.at_word(word::INT) {
            return self.type_word(word::INT, Ty::Int);
        }
        if self.at_word(word::BOOL) {
            return self.type_word(word::BOOL, Ty::Bool);
        }
        if self.at_word(word::TEXT) {
            return self.type_word(word::TEXT, Ty::Text);
        }
        if self.at_word(word::THREAD_ID) {
            return self.type_word(word::THREAD_ID, Ty::Thread);
        }
        if self.at_word(word::SOME_EXCEPTION) {
            return self.type_word(word::SOME_EXCEPTION, Ty::Exn);
        }
        if self.at_symbol(symbol::OPEN_PAREN) {
            return self.type_in_parens(alloc, depth);
        }
        self.list_type(alloc, depth)
    }

    #[cycle(types)]
    fn list_type(&mut self, alloc: Global, depth: u32) -> Result<Written, Halt>
        ensures reads { Reads (parser.read (parser.enter depth) (Rule.within (λ p t. g.written t p) k.open_bracket OpenerPart.type_in_brackets) self.old) result self.new }
        ensures shorter { OnOk result (length self.new < length self.old) }
    {
        let pos = self.open_symbol(symbol::OPEN_BRACKET, depth)?;
        let ty = self.type_in_brackets(alloc, depth - 1)?;
        Ok(Written { ty, pos })
    }

    #[cycle(types)]
    fn type_in_brackets(&mut self, alloc: Global, depth: u32) -> Result<Ty, Halt>
        ensures reads { Reads (parser.read (parser.enter depth) (g.rule_of OpenerPart.type_in_brackets) self.old) result self.new }
        ensures shorter { OnOk result (length self.new < length self.old) }
    {
        let item = self.ty(alloc, depth)?;
        self.symbol(symbol::CLOSE_BRACKET)?;
        Ok(Ty::List(Boxed::new(alloc, item.ty)?))
    }

    fn type_word(&mut self, word: u8, ty: Ty) -> Result<Written, Halt>
        ensures reads { Reads (parser.take (TokenKind.word word) (λ t. parser.done (g.written ty t.pos)) self.old) result self.new }
        ensures shorter { OnOk result (length self.new < length self.old) }
    {
        let pos = self.word(word)?;
        Ok(Written { ty, pos })
    }

    #[cycle(types)]
    fn type_in_parens(&mut self, alloc: Global, depth: u32) -> Result<Written, Halt>
        ensures reads { Reads (parser.read (parser.enter depth) (Rule.within (λ p t. g.written t p) k.open_paren OpenerPart.type_in_parens) self.old) result self.new }
        ensures shorter { OnOk result (length self.new < length self.old) }
    {
        let pos = self.open_symbol(symbol::OPEN_PAREN, depth)?;
        let ty = self.types_in_parens(alloc, depth - 1)?;
        Ok(Written { ty, pos })
    }

    #[cycle(types)]
    fn types_in_parens(&mut self, alloc: Global, depth: u32) -> Result<Ty, Halt>
        ensures reads { Reads (parser.read (parser.enter depth) (g.rule_of OpenerPart.type_in_parens) self.old) result self.new }
        ensures shorter { OnOk result (length self.new < length self.old) }
    {
        if self.at_symbol(symbol::CLOSE_PAREN) {
            self.symbol(symbol::CLOSE_PAREN)?;
            return Ok(Ty::Unit);
        }
        let first = self.ty(alloc, depth)?;
        self.type_end(alloc, depth, first.ty)
    }

    #[cycle(types)]
    fn type_end(&mut self, alloc: Global, depth: u32, first: Ty) -> Result<Ty, Halt>
        ensures reads { Reads (parser.read_then (parser.enter depth) g.type_end (λ f. parser.done (f first)) self.old) result self.new }
        ensures shorter { OnOk result (length self.new < length self.old) }
    {
        if self.at_symbol(symbol::CLOSE_PAREN) {
            self.symbol(symbol::CLOSE_PAREN)?;
            return Ok(first);
        }
        self.symbol(symbol::COMMA)?;
        let second = self.ty(alloc, depth)?;
        self.symbol(symbol::CLOSE_PAREN)?;
        Ok(Ty::Pair(Boxed::new(alloc, first)?, Boxed::new(alloc, second.ty)?))
    }

    #[cycle(types)]
    pub fn ty(&mut self, alloc: Global, depth: u32) -> Result<Written, Halt>
        ensures reads { Reads (parser.read (parser.enter depth) g.type self.old) result self.new }
        ensures shorter { OnOk result (length self.new < length self.old) }
    {
        if self.at_word(word::MAYBE) {
            let pos = self.word(word::MAYBE)?;
            let item = self.atype(alloc, depth)?;
            let ty = Ty::Maybe(Boxed::new(alloc, item.ty)?);
            return Ok(Written { ty, pos });
        }
        if self.at_word(word::EITHER) {
            let pos = self.word(word::EITHER)?;
            let left = self.atype(alloc, depth)?;
            let right = self.atype(alloc, depth)?;
            let ty = Ty::Either(Boxed::new(alloc, left.ty)?, Boxed::new(alloc, right.ty)?);
            return Ok(Written { ty, pos });
        }
        if self.at_word(word::MVAR) {
            let pos = self.word(word::MVAR)?;
            let item = self.atype(alloc, depth)?;
            let ty = Ty::Cell(Boxed::new(alloc, item.ty)?);
            return Ok(Written { ty, pos });
        }
        if self.at_word(word::ASYNC) {
            let pos = self.word(word::ASYNC)?;
            let item = self.atype(alloc, depth)?;
            let ty = Ty::Async(Boxed::new(alloc, item.ty)?);
            return Ok(Written { ty, pos });
        }
        self.atype(alloc, depth)
    }

    /// A word and two types, each behind an `@`.
    pub fn side_types(
        &mut self,
        alloc: Global,
        depth: u32,
    ) -> Result<(SideForm, Pos, Written, Written), Halt>
        ensures reads { Reads (parser.read (parser.enter depth) g.side_types self.old) result self.new }
        ensures shorter { OnOk result (length self.new < length self.old) }
    {
        let word = self.side_word(depth)?;
        self.symbol(symbol::AT)?;
        let left = self.atype(alloc, depth)?;
        self.symbol(symbol::AT)?;
        let right = self.atype(alloc, depth)?;
        Ok((word.0, word.1, left, right))
    }
}
