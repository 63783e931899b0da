ghost use Rattle.std.specs.Prelude.{◌≡◌, ◌≤◌, ◌+◌, ◌-◌, ◌^◌, ◌++◌, ◌↔◌, Some, None, [], min, length, take, IfOk, IfSome, IsNone, IsOk, OnErr, vec_capacity, vec_len};
ghost use Rattle.hs_io.specs.Causes.{HasCause};
ghost use Rattle.hs_io.specs.Outside.{Puts, stop_of};

use crate::failed::Failed;
use crate::sink::Sink;
use hs_base::NoMemory;
use std::alloc::Global;

// How many bytes this call tells at most, where it is one that fails.
fn stop_at(fails: &[(u32, u32)], call: u64) -> Option<u32>
    ensures { result ≡ stop_of fails.now call }
{
    for pair in fails {
        if u64::from(pair.0) == call {
            return Some(pair.1);
        }
    }
    None
}

/// A sink in memory with room for so many bytes. A call that is listed, from 1, tells at most the stated number of
/// bytes and fails, and a piece that does not fit is told as far as it fits and fails.
#[derive(Debug, Drop)]
pub struct MemSink {
    told: Vec<u8>,
    room: usize,
    fails: Vec<(u32, u32)>,
    calls: u64,
    faults: u64,
    ghost within: { vec_len told ≤ room },
    ghost fits: { room ≤ vec_capacity told },
}

impl MemSink {
    ghost use Rattle.hs_io.specs.Memory.{bytes_told, room_of, failing_puts, put_calls, put_faults};

    pub fn of(alloc: Global, room: usize, fails: &[(u32, u32)]) -> Result<MemSink, NoMemory>
        ensures told { IfOk result (λ s. bytes_told s ≡ []) }
        ensures room { IfOk result (λ s. room_of s ≡ room) }
        ensures fails { IfOk result (λ s. failing_puts s ≡ fails.now) }
        ensures calls { IfOk result (λ s. put_calls s ≡ 0) }
        ensures faults { IfOk result (λ s. put_faults s ≡ 0) }
    {
        Ok(MemSink {
            told: Vec::with_capacity(alloc, room)?,
            room,
            fails: Vec::from_slice(alloc, fails)?,
            calls: 0,
            faults: 0,
        })
    }

    /// The bytes that it was told.
    pub fn told(&self) -> &[u8]
        ensures { result.now ≡ bytes_told self.now }
    {
        &self.told
    }
}

impl Sink for MemSink {
    ghost use Rattle.hs_io.specs.Memory.{bytes_told, failing_puts, put_calls, put_faults, room_left, room_of};

    ghost told = { λ s. Some s.told.items };

    ghost faults = { λ s. s.faults };

    fn put(&mut self, bytes: &[u8]) -> Result<(), Failed>
        ensures told { Puts (Some (bytes_told self.old)) (Some (bytes_told self.new)) result bytes.now }
        ensures cause { HasCause (put_faults self.old) (put_faults self.new) result }
        ensures calls { put_calls self.new ≡ min (put_calls self.old + 1) (2 ^ 64 - 1) }
        ensures counted { OnErr result (put_faults self.new ≡ min (put_faults self.old + 1) (2 ^ 64 - 1)) }
        ensures ok { IsOk result ↔ (length bytes.now ≤ room_left self.old) × (stop_of (failing_puts self.old) (put_calls self.new) ≡ None) }
        ensures listed { IfSome (stop_of (failing_puts self.old) (put_calls self.new)) (λ most.
            bytes_told self.new ≡ bytes_told self.old ++ take (min most (room_left self.old)) bytes.now) }
        ensures full { IsNone (stop_of (failing_puts self.old) (put_calls self.new)) →
            bytes_told self.new ≡ bytes_told self.old ++ take (room_left self.old) bytes.now }
        ensures same_room { room_of self.new ≡ room_of self.old }
        ensures same_fails { failing_puts self.new ≡ failing_puts self.old }
    {
        self.calls = self.calls.saturating_add(1);
        let stop = stop_at(&self.fails, self.calls);
        let room = self.room - self.told.len();
        let most = match stop {
            Some(most) => room.min(most as usize),
            None => room,
        };
        let count = most.min(bytes.len());
        let told = self.told.extend_from_slice(&bytes[..count]).is_ok();
        if told && stop.is_none() && count == bytes.len() {
            return Ok(());
        }
        self.faults = self.faults.saturating_add(1);
        Err(Failed)
    }
}

/// A sink that takes everything and tells nothing.
#[derive(Clone, Copy, Debug)]
pub struct NullSink;

impl Sink for NullSink {
    ghost told = { λ _. None };

    ghost faults = { λ _. 0 };

    fn put(&mut self, _bytes: &[u8]) -> Result<(), Failed> {
        Ok(())
    }
}
