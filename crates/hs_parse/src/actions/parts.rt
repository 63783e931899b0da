ghost use Rattle.std.specs.Prelude.{◌≡◌, ◌+◌, ◌<◌, ◌≤◌, length, OnOk, [], ◌∷◌};
ghost use Rattle.rules_grammar.specs.Grammar as g;
ghost use Rattle.hs_grammar.specs.Parser as parser;
ghost use Rattle.parse_leaves.specs.Readers.{ReadsBelow};
ghost use Rattle.parse_leaves.specs.Reads.{Reads};

use hs_base::{Block, Name};
use parse_leaves::{Cursor, Halt};
use std::alloc::Global;

/// A block that stands in a block.
pub fn nested_block<'a, F: Fn(&mut Cursor<'a>, u32) -> Result<Block, Halt>>(
    cursor: &mut Cursor<'a>,
    depth: u32,
    inner: &F,
) -> Result<Block, Halt>
    requires { ReadsBelow F.Fn inner.now g.block (depth + 1) }
    ensures reads { Reads (parser.read (parser.enter depth) g.block cursor.old) result cursor.new }
    ensures shorter { OnOk result (length cursor.new < length cursor.old) }
{
    inner(cursor, depth)
}

/// Two blocks.
pub fn two_blocks<'a, F: Fn(&mut Cursor<'a>, u32) -> Result<Block, Halt>>(
    cursor: &mut Cursor<'a>,
    depth: u32,
    inner: &F,
) -> Result<(Block, Block), Halt>
    requires { ReadsBelow F.Fn inner.now g.block (depth + 1) }
    ensures reads { Reads (parser.read (parser.enter depth) g.two_blocks cursor.old) result cursor.new }
    ensures shorter { OnOk result (length cursor.new < length cursor.old) }
{
    let first = nested_block(cursor, depth, inner)?;
    let second = nested_block(cursor, depth, inner)?;
    Ok((first, second))
}

/// Two blocks with a name between them.
pub fn guarded_block<'a, F: Fn(&mut Cursor<'a>, u32) -> Result<Block, Halt>>(
    cursor: &mut Cursor<'a>,
    alloc: Global,
    depth: u32,
    inner: &F,
) -> Result<(Block, Name, Block), Halt>
    requires { ReadsBelow F.Fn inner.now g.block (depth + 1) }
    ensures reads { Reads (parser.read (parser.enter depth) g.guarded_block cursor.old) result cursor.new }
    ensures shorter { OnOk result (length cursor.new < length cursor.old) }
{
    let body = nested_block(cursor, depth, inner)?;
    let handler = named_block(cursor, alloc, depth, inner)?;
    Ok((body, handler.0, handler.1))
}

/// A name and a block.
pub fn named_block<'a, F: Fn(&mut Cursor<'a>, u32) -> Result<Block, Halt>>(
    cursor: &mut Cursor<'a>,
    alloc: Global,
    depth: u32,
    inner: &F,
) -> Result<(Name, Block), Halt>
    requires { ReadsBelow F.Fn inner.now g.block (depth + 1) }
    ensures reads { Reads (parser.read (parser.enter depth) g.named_block cursor.old) result cursor.new }
    ensures shorter { OnOk result (length cursor.new < length cursor.old) }
{
    let name = cursor.name(alloc)?;
    let block = nested_block(cursor, depth, inner)?;
    Ok((name, block))
}
