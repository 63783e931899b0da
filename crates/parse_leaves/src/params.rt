ghost use Rattle.std.specs.Prelude.{◌≡◌, ◌<◌, ◌≤◌, length, OnOk};
ghost use Rattle.rules_grammar.specs.Grammar as g;
ghost use Rattle.rules_grammar.specs.GrammarParts.{OpenerPart};
ghost use Rattle.hs_grammar.specs.Parser as parser;
ghost use Rattle.parse_leaves.specs.Reads.{Reads};

use crate::cursor::Cursor;
use crate::halt::Halt;
use hs_base::Param;
use hs_items::Items;
use rules_tokens::symbol;
use std::alloc::Global;

impl<'a> Cursor<'a> {
    pub fn param(&mut self, alloc: Global, depth: u32) -> Result<Param, Halt>
        ensures reads { Reads (parser.read (parser.enter depth) g.param self.old) result self.new }
        ensures shorter { OnOk result (length self.new < length self.old) }
    {
        self.open_symbol(symbol::OPEN_PAREN, depth)?;
        self.param_in_parens(alloc, depth - 1)
    }

    fn param_in_parens(&mut self, alloc: Global, depth: u32) -> Result<Param, Halt>
        ensures reads { Reads (parser.read (parser.enter depth) (g.rule_of OpenerPart.param_in_parens) self.old) result self.new }
        ensures shorter { OnOk result (length self.new < length self.old) }
    {
        let name = self.name(alloc)?;
        self.symbol(symbol::DOUBLE_COLON)?;
        let ty = self.ty(alloc, depth)?;
        self.symbol(symbol::CLOSE_PAREN)?;
        Ok(Param { name, ty })
    }

    pub fn params(&mut self, alloc: Global, depth: u32) -> Result<Items<Param>, Halt>
        ensures reads { Reads (parser.read (parser.enter depth) (g.many g.param) self.old) result self.new }
        ensures shorter { OnOk result (length self.new ≤ length self.old) }
    {
        let mut items = Items::new(alloc);
        'items: while self.at_symbol(symbol::OPEN_PAREN) {
            items.add(self.param(alloc, depth)?)?;
        }
        Ok(items)
    }
}
