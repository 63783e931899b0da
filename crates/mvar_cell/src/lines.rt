ghost use Rattle.std.specs.Prelude.{◌≡◌, ◌≢◌, ◌+◌, ◌^◌, ◌<◌, ◌≤◌, [], ◌∷◌, ◌++◌, length, slice_set, OnOk, Some, IsSome, MatchOption, nat_eq, ℕ, true, false};
ghost use Rattle.std.specs.HashMap as table;
ghost use Rattle.slab.specs.Slab.{get, slab_len, ContainsKey, Updates};
ghost use Rattle.mvar_cell.specs.Lined.{line_of};
ghost use Rattle.mvar_cell.specs.Nodes.{place, place_of, want_of, is_sought, any_sought, IsLine, StandsBefore, LeavesFirst, IsFollowed, Unlinked, behind, ends_after_leaving};
ghost use Rattle.mvar_cell.specs.Cursors.{moved_cursor, cursor_after_leaving, IsMarked};
ghost use Rattle.mvar_cell.specs.Befores.{IsBacked, IsFirstNow, StoodBehind, IsClosed};
ghost use Rattle.rules_waiting.specs.OneCell.{reads_it, stands_in};
ghost use Rattle.mvar_cell.specs.declared.lines.LineNode.{LineNode};
ghost use Rattle.mvar_cell.specs.declared.lines.Sought.TheVariants.{Reader};

use crate::befores::{Befores, before_of, clear, put, replace};
use hs_base::Value;
use slab::Slab;
use std::alloc::{AllocError, Global};
use std::collections::HashMap;
use std::marker::Model;

/// What a waiting thread wants of its cell.
#[derive(Drop)]
pub enum Want {
    Take,
    Read,
    Put(Value),
}

impl Want {
    pub fn reads(&self) -> bool
        ensures { result ≡ reads_it (want_of self.now) }
    {
        matches!(self, Want::Read)
    }
}

/// Which place of a line is sought: that of a thread, or the first of a reader.
#[derive(Clone, Copy)]
pub enum Sought {
    Thread(u32),
    Reader,
}

impl Sought {
    fn is_at(self, node: &LineNode) -> bool
        ensures { result ≡ is_sought self (place_of (Some node.now)) }
    {
        match self {
            Sought::Thread(thread) => node.thread == thread,
            Sought::Reader => node.want.reads(),
        }
    }
}

/// A place in a line, and the key of the place behind it.
#[derive(Drop)]
struct LineNode {
    line: usize,
    thread: u32,
    want: Want,
    next: usize,
}

/// The keys of the first and the last place of a line, how many there are, and the cursor: the key of a place up to which,
/// itself included, no reader stands.
#[derive(Clone, Copy)]
struct Ends {
    first: usize,
    last: usize,
    len: usize,
    cursor: Option<usize>,
}

/// Lines by number. Each place is a node of one pool, so a place that is left serves any line. A thread stands in one line
/// only, so that it alone is the key to the node before its own.
pub struct Lines {
    ends: Vec<Ends>,
    nodes: Slab<LineNode>,
    befores: Befores,
}

// Written out, so that it is proved once, here, and not in each function above that lets one go.
impl Drop for Lines {
    fn drop(self) {
        let Lines {
            ends: _,
            nodes: _,
            befores: _,
        } = self;
    }
}

impl Model for Lines {
    ghost use Rattle.std.specs.Coded.{codes};
    ghost use Rattle.hs_base.specs.contracts.value.Value as value;
    ghost use Rattle.mvar_cell.specs.Lined.{Lined};

    ghost Value = { Lined };

    ghost coded = { Prim.hlevel (codes, value.the_row.coded) };

    ghost use Rattle.std.specs.Prelude.{nat_eq};
    ghost use Rattle.std.specs.HashMap.{get, spare};
    ghost use Rattle.mvar_cell.specs.Nodes.{lined};
    ghost use Rattle.mvar_cell.specs.Befores.{AreLines};

    ghost view = { λ a. lined a.ends.items a.nodes a.ends.cap (spare a.befores) };

    ghost invariant = { λ a. AreLines (get nat_eq a.befores) a.ends.items a.nodes };
}

/// The place with this key is followed by that one.
fn link(nodes: &mut Slab<LineNode>, key: usize, next: usize)
    requires { ContainsKey nodes.old key }
    ensures linked { (n : LineNode) → get nodes.old key ≡ Some n → Updates nodes.old nodes.new key (Some (record n { next = next })) }
    ensures len { slab_len nodes.new ≡ slab_len nodes.old }
    ensures capacity { nodes.new.capacity ≡ nodes.old.capacity }
{
    match nodes.get_mut(key) {
        Some(node) => node.next = next,
        None => unreachable!(),
    }
}

/// Looks from the cursor on for the node before the first reader's, where the first of all isn't one. That node is the next
/// cursor, so that each place of a line is passed at most once: the time is constant when spread over all calls.
fn search(nodes: &Slab<LineNode>, ends: Ends) -> usize
    requires chain { (k : ℕ) × IsLine nodes.now k ends }
    requires marked { IsMarked nodes.now ends }
    requires some { 0 < ends.len }
    requires first { is_sought Reader (place_of (get nodes.now ends.first)) ≡ false }
    requires stands { any_sought Reader (behind nodes.now ends) ≡ true }
    ensures { StandsBefore nodes.now ends Reader result }
{
    let mut at = ends.cursor.unwrap_or(ends.first);
    'walk: for _step in 1..ends.len {
        let next = nodes[at].next;
        if nodes[next].want.reads() {
            return at;
        }
        at = next;
    }
    unreachable!()
}

/// The node before the first that is sought, where the first of all isn't. The table has it for a thread.
fn before(nodes: &Slab<LineNode>, befores: &Befores, ends: Ends, sought: Sought) -> usize
    requires chain { (k : ℕ) × IsLine nodes.now k ends }
    requires backed { IsBacked (table.get nat_eq befores.now) nodes.now ends }
    requires marked { IsMarked nodes.now ends }
    requires some { 0 < ends.len }
    requires first { is_sought sought (place_of (get nodes.now ends.first)) ≡ false }
    requires stands { any_sought sought (behind nodes.now ends) ≡ true }
    ensures { StandsBefore nodes.now ends sought result }
{
    match sought {
        Sought::Thread(thread) => match before_of(befores, thread) {
            Some(key) => key,
            None => unreachable!(),
        },
        Sought::Reader => search(nodes, ends),
    }
}

/// The cursor of a line that this node leaves: where it stood there, it goes back to the node before, if there is one.
fn moved(cursor: Option<usize>, gone: usize, before: Option<usize>) -> Option<usize>
    ensures { result ≡ moved_cursor cursor gone before }
{
    match cursor {
        Some(at) if at == gone => before,
        _ => cursor,
    }
}

/// The cursor of a line that the node behind this one leaves. Where the first reader was sought, none stands up to this one.
fn cursor_without(
    nodes: &Slab<LineNode>,
    ends: Ends,
    sought: Sought,
    before: usize,
) -> Option<usize>
    requires { IsFollowed nodes.now ends.len before }
    ensures { result ≡ cursor_after_leaving nodes.now sought before ends.cursor }
{
    match sought {
        Sought::Thread(_) => moved(ends.cursor, nodes[before].next, Some(before)),
        Sought::Reader => Some(before),
    }
}

/// Takes the node behind this one out of its line; answers it, and the ends of the line.
fn unlink(nodes: &mut Slab<LineNode>, ends: Ends, before: usize) -> (LineNode, Ends)
    requires { IsFollowed nodes.old ends.len before }
    ensures unlinked { Unlinked nodes.old nodes.new before result.0 }
    ensures ends { result.1 ≡ ends_after_leaving nodes.old before ends.cursor ends }
    ensures len { slab_len nodes.new + 1 ≡ slab_len nodes.old }
    ensures capacity { nodes.new.capacity ≡ nodes.old.capacity }
{
    let key = nodes[before].next;
    let gone = nodes.remove(key);
    link(nodes, before, gone.next);
    let ends = Ends {
        last: if key == ends.last { before } else { ends.last },
        len: ends.len - 1,
        ..ends
    };
    (gone, ends)
}

/// The thread at the front of a line, where anybody is left, has nobody before it now.
fn begin(befores: &mut Befores, nodes: &Slab<LineNode>, ends: Ends)
    requires { ends.len ≢ 0 → IsSome (get nodes.now ends.first) }
    ensures first { IsFirstNow (table.get nat_eq befores.old) (table.get nat_eq befores.new) nodes.now ends.len ends.first }
    ensures spare { table.spare befores.old ≤ table.spare befores.new }
{
    if ends.len != 0 {
        clear(befores, nodes[ends.first].thread);
    }
}

/// Closes the gap that this node left behind that of `before`: who stood behind it, if anybody, has that one before it now.
fn close(befores: &mut Befores, nodes: &Slab<LineNode>, gone: &LineNode, last: usize, before: usize)
    requires { last ≢ before → StoodBehind (table.get nat_eq befores.old) nodes.now gone.now }
    ensures closed { IsClosed (table.get nat_eq befores.old) (table.get nat_eq befores.new) nodes.now gone.now last before }
    ensures spare { table.spare befores.old ≤ table.spare befores.new }
{
    clear(befores, gone.thread);
    if last != before {
        replace(befores, nodes[gone.next].thread, before);
    }
}

impl Lines {
    pub fn new(alloc: Global) -> Lines
        ensures { result.lines ≡ [] }
    {
        Lines {
            ends: Vec::new(alloc),
            nodes: Slab::new(alloc),
            befores: HashMap::new(alloc),
        }
    }

    /// Makes room for so many more lines and places.
    pub fn room(&mut self, n: usize) -> Result<(), AllocError>
        ensures lines { self.new.lines ≡ self.old.lines }
        ensures kept { self.old.spare ≤ self.new.spare }
        ensures ok { OnOk result (n ≤ self.new.spare) }
    {
        self.ends.reserve(n)?;
        self.nodes.reserve(n)?;
        self.befores.reserve(n)
    }

    pub fn len(&self) -> usize
        ensures { result ≡ length self.now.lines }
    {
        self.ends.len()
    }

    /// How many places a line has.
    pub fn waiting(&self, line: usize) -> usize
        requires { line < length self.now.lines }
        ensures { result ≡ length (line_of self.now line) }
    {
        self.ends[line].len
    }

    /// A new line, the last, with no place.
    pub fn fresh(&mut self)
        requires { 1 ≤ self.old.spare }
        ensures lines { self.new.lines ≡ self.old.lines ++ [] ∷ [] }
        ensures spare { self.old.spare ≤ self.new.spare + 1 }
    {
        self.ends.push_reserved(Ends {
            first: 0,
            last: 0,
            len: 0,
            cursor: None,
        });
    }

    /// The thread, which stands in no line, stands in this one, last, and wants this.
    pub fn join(&mut self, line: usize, thread: u32, want: Want)
        requires within { line < length self.old.lines }
        requires spare { 1 ≤ self.old.spare }
        requires alone { (k : ℕ) → stands_in thread (line_of self.old k) ≡ false }
        ensures lines { self.new.lines ≡ slice_set self.old.lines line (line_of self.old line ++ place thread want ∷ []) }
        ensures short { length (line_of self.old line) + 1 < 2 ^ 64 }
        ensures spare { self.old.spare ≤ self.new.spare + 1 }
    {
        let key = self.nodes.insert_reserved(LineNode {
            line,
            thread,
            want,
            next: 0,
        });
        let ends = self.ends[line];
        if ends.len == 0 {
            self.ends[line] = Ends {
                first: key,
                last: key,
                len: 1,
                cursor: None,
            };
        } else {
            link(&mut self.nodes, ends.last, key);
            put(&mut self.befores, thread, ends.last);

            // A line is no longer than there are nodes, and their number fits.
            let _ = self.nodes.len();
            self.ends[line] = Ends {
                last: key,
                len: ends.len + 1,
                ..ends
            };
        }
    }

    /// Takes the first place out of the line.
    pub fn serve(&mut self, line: usize) -> Option<(u32, Want)>
        requires { line < length self.old.lines }
        ensures served { MatchOption result ((line_of self.old line ≡ []) × (self.new.lines ≡ self.old.lines)) (λ w. line_of self.old line ≡ place w.0 w.1 ∷ line_of self.new line) }
        ensures lines { self.new.lines ≡ slice_set self.old.lines line (line_of self.new line) }
        ensures spare { self.old.spare ≤ self.new.spare }
    {
        let ends = self.ends[line];
        if ends.len == 0 {
            return None;
        }
        let LineNode {
            line: _,
            thread,
            want,
            next,
        } = self.nodes.remove(ends.first);
        let ends = Ends {
            first: next,
            len: ends.len - 1,
            cursor: moved(ends.cursor, ends.first, None),
            ..ends
        };
        begin(&mut self.befores, &self.nodes, ends);
        self.ends[line] = ends;
        Some((thread, want))
    }

    /// The first place that is sought leaves the line: its thread, and what it wanted. The time is constant for a thread. For a
    /// reader it is so when spread over all calls: each place is passed at most once, and each leave takes one step more.
    pub fn leave(&mut self, line: usize, sought: Sought) -> (u32, Want)
        requires within { line < length self.old.lines }
        requires stands { any_sought sought (line_of self.old line) ≡ true }
        ensures lines { LeavesFirst sought line result.0 result.1 self.old self.new }
        ensures spare { self.old.spare ≤ self.new.spare }
    {
        let ends = self.ends[line];
        if sought.is_at(&self.nodes[ends.first]) {
            return match self.serve(line) {
                Some(place) => place,
                None => unreachable!(),
            };
        }
        let before = before(&self.nodes, &self.befores, ends, sought);
        let cursor = cursor_without(&self.nodes, ends, sought, before);
        let (gone, ends) = unlink(&mut self.nodes, Ends { cursor, ..ends }, before);
        close(&mut self.befores, &self.nodes, &gone, ends.last, before);
        self.ends[line] = ends;
        (gone.thread, gone.want)
    }
}
