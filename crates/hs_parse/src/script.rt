ghost use Rattle.std.specs.Prelude.{◌≡◌, ◌<◌, ◌≤◌, length, OnOk};
ghost use Rattle.rules_grammar.specs.Grammar as g;
ghost use Rattle.hs_grammar.specs.Parser as parser;
ghost use Rattle.parse_leaves.specs.Reads.{Reads};

use crate::blocks::block;
use hs_base::{Body, Def, Script};
use hs_items::Items;
use parse_exprs::expr;
use parse_leaves::{Cursor, Halt};
use rules_tokens::{symbol, word};
use std::alloc::Global;

fn def_body(cursor: &mut Cursor, alloc: Global, depth: u32) -> Result<Body, Halt>
    ensures reads { Reads (parser.read (parser.enter depth) g.def_body cursor.old) result cursor.new }
    ensures shorter { OnOk result (length cursor.new < length cursor.old) }
{
    if cursor.at_word(word::IO) {
        cursor.word(word::IO)?;
        let ty = cursor.atype(alloc, depth)?;
        cursor.symbol(symbol::EQUAL)?;
        let block = block(cursor, alloc, depth)?;
        return Ok(Body::Action(ty, block));
    }
    let ty = cursor.ty(alloc, depth)?;
    cursor.symbol(symbol::EQUAL)?;
    let value = expr(cursor, alloc, depth)?;
    Ok(Body::Pure(ty, value))
}

fn def(cursor: &mut Cursor, alloc: Global, depth: u32) -> Result<Def, Halt>
    ensures reads { Reads (parser.read (parser.enter depth) g.def cursor.old) result cursor.new }
    ensures shorter { OnOk result (length cursor.new < length cursor.old) }
{
    let name = cursor.name(alloc)?;
    let params = cursor.params(alloc, depth)?;
    cursor.symbol(symbol::DOUBLE_COLON)?;
    let body = def_body(cursor, alloc, depth)?;
    cursor.symbol(symbol::SEMICOLON)?;
    Ok(Def { name, params, body })
}

fn defs(cursor: &mut Cursor, alloc: Global, depth: u32) -> Result<Items<Def>, Halt>
    ensures reads { Reads (parser.read (parser.enter depth) (g.many g.def) cursor.old) result cursor.new }
    ensures shorter { OnOk result (length cursor.new ≤ length cursor.old) }
{
    let mut items = Items::new(alloc);
    'items: while cursor.at_name() {
        items.add(def(cursor, alloc, depth)?)?;
    }
    Ok(items)
}

/// A whole script, to the end.
pub fn script(cursor: &mut Cursor, alloc: Global, depth: u32) -> Result<Script, Halt>
    ensures { Reads (parser.whole depth cursor.old) result cursor.new }
{
    let defs = defs(cursor, alloc, depth)?;
    end(cursor, Script { defs })
}

fn end(cursor: &mut Cursor, script: Script) -> Result<Script, Halt>
    ensures { Reads (parser.at_end script cursor.old) result cursor.new }
{
    match cursor.peek() {
        None => Ok(script),
        Some(_) => Err(cursor.unexpected()),
    }
}
