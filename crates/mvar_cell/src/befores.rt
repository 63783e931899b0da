//! For each thread that isn't the first of its line, the key of the node before its own.

ghost use Rattle.std.specs.Prelude.{◌≡◌, ◌+◌, ◌≤◌, IsSome, nat_eq, Some, None};
ghost use Rattle.std.specs.HashMap.{get, spare};
ghost use Rattle.mvar_cell.specs.Befores.{IsPut};

use std::collections::HashMap;

pub type Befores = HashMap<u32, usize>;

pub fn before_of(befores: &Befores, thread: u32) -> Option<usize>
    ensures { result ≡ get nat_eq befores.now thread }
{
    befores.get(&thread).copied()
}

pub fn put(befores: &mut Befores, thread: u32, key: usize)
    requires { 1 ≤ spare befores.old }
    ensures key { IsPut (get nat_eq befores.old) (get nat_eq befores.new) thread (Some key) }
    ensures spare { spare befores.old ≤ spare befores.new + 1 }
{
    match befores.insert(thread, key) {
        Ok(_) => {}
        Err(_) => unreachable!(),
    }
}

/// Puts another key where the thread has one.
pub fn replace(befores: &mut Befores, thread: u32, key: usize)
    requires { IsSome (get nat_eq befores.old thread) }
    ensures key { IsPut (get nat_eq befores.old) (get nat_eq befores.new) thread (Some key) }
    ensures spare { spare befores.old ≤ spare befores.new }
{
    match befores.get_mut(&thread) {
        Some(old) => *old = key,
        None => unreachable!(),
    }
}

pub fn clear(befores: &mut Befores, thread: u32)
    ensures key { IsPut (get nat_eq befores.old) (get nat_eq befores.new) thread None }
    ensures spare { spare befores.old ≤ spare befores.new }
{
    let _ = befores.remove(&thread);
}
