//! Places by the number of a thread.

ghost use Rattle.std.specs.Prelude.{◌≡◌, ◌+◌, ◌≤◌, IsSome, nat_eq, Some, None};
ghost use Rattle.std.specs.HashMap.{get, spare};
ghost use Rattle.exn_flight.specs.Tables.{IsPut, IsPutFirst};

use std::collections::HashMap;

/// No more threads than these have numbers.
pub const THREADS: usize = 1 << 32;

pub type Table = HashMap<u32, usize>;

pub fn place_of(table: &Table, thread: u32) -> Option<usize>
    ensures { result ≡ get nat_eq table.now thread }
{
    table.get(&thread).copied()
}

pub fn put(table: &mut Table, thread: u32, place: usize)
    requires { 1 ≤ spare table.old }
    ensures place { IsPut (get nat_eq table.old) (get nat_eq table.new) thread (Some place) }
    ensures spare { spare table.old ≤ spare table.new + 1 }
{
    match table.insert(thread, place) {
        Ok(_) => {}
        Err(_) => unreachable!(),
    }
}

/// Puts the place where the thread has none.
pub fn put_first(table: &mut Table, thread: u32, place: usize)
    requires { 1 ≤ spare table.old }
    ensures place { IsPutFirst (get nat_eq table.old) (get nat_eq table.new) thread place }
    ensures spare { spare table.old ≤ spare table.new + 1 }
{
    if place_of(table, thread).is_none() {
        put(table, thread, place);
    }
}

/// Puts another place where the thread has one.
pub fn replace(table: &mut Table, thread: u32, place: usize)
    requires { IsSome (get nat_eq table.old thread) }
    ensures place { IsPut (get nat_eq table.old) (get nat_eq table.new) thread (Some place) }
    ensures spare { spare table.old ≤ spare table.new }
{
    match table.get_mut(&thread) {
        Some(old) => *old = place,
        None => unreachable!(),
    }
}

pub fn clear(table: &mut Table, thread: u32)
    ensures place { IsPut (get nat_eq table.old) (get nat_eq table.new) thread None }
    ensures spare { spare table.old ≤ spare table.new }
{
    let _ = table.remove(&thread);
}
