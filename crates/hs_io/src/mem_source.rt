ghost use Rattle.std.specs.Prelude.{◌≡◌, ◌≤◌, ◌-◌, ◌+◌, ◌^◌, ◌↔◌, IsTrue, IsErr, Some, min, length, take, drop, IfOk, OnErr, Contains};
ghost use Rattle.std.specs.Io.{ReadsAtMost};
ghost use Rattle.std.specs.Io.KnownBytes.{ReadConsumes};
ghost use Rattle.hs_io.specs.Causes.{HasCause};

use crate::failed::Failed;
use crate::source::Source;
use hs_base::NoMemory;
use std::alloc::Global;

// Copies at most `most` bytes of what `bytes` has from `at` on to the front of `into`.
fn copy_from(bytes: &[u8], at: usize, most: usize, into: &mut [u8]) -> usize
    requires { at ≤ length bytes.now }
    ensures count { result ≡ min most (min (length into.new) (length bytes.now - at)) }
    ensures front { take result into.new ≡ take result (drop at bytes.now) }
{
    let count = most.min(into.len().min(bytes.len() - at));
    into[..count].copy_from_slice(&bytes[at..at + count]);
    count
}

// Whether this call is listed.
fn is_listed(calls: &[u32], call: u64) -> bool
    ensures { IsTrue result ↔ Contains calls.now call }
{
    calls.iter().any(|listed| u64::from(*listed) == call)
}

/// A source in memory, which gives at most `piece` bytes a call and fails at the calls that are listed, from 1.
#[derive(Debug, Drop)]
pub struct MemSource {
    bytes: Vec<u8>,
    at: usize,
    piece: usize,
    fails: Vec<u32>,
    calls: u64,
    faults: u64,
    ghost within: { at ≤ length bytes.items },
    ghost some: { 1 ≤ piece },
}

impl MemSource {
    ghost use Rattle.hs_io.specs.Memory.{bytes_left, read_calls, read_faults, piece_of, failing_reads};

    pub fn of(
        alloc: Global,
        bytes: &[u8],
        piece: usize,
        fails: &[u32],
    ) -> Result<MemSource, NoMemory>
        requires { 1 ≤ piece }
        ensures bytes { IfOk result (λ s. bytes_left s ≡ bytes.now) }
        ensures piece { IfOk result (λ s. piece_of s ≡ piece) }
        ensures fails { IfOk result (λ s. failing_reads s ≡ fails.now) }
        ensures calls { IfOk result (λ s. read_calls s ≡ 0) }
        ensures faults { IfOk result (λ s. read_faults s ≡ 0) }
    {
        Ok(MemSource {
            bytes: Vec::from_slice(alloc, bytes)?,
            at: 0,
            piece,
            fails: Vec::from_slice(alloc, fails)?,
            calls: 0,
            faults: 0,
        })
    }
}

impl Source for MemSource {
    ghost use Rattle.hs_io.specs.Memory.{bytes_left, failing_reads, piece_of, read_calls, read_faults};

    ghost left = { λ s. Some (drop s.at s.bytes.items) };

    ghost faults = { λ s. s.faults };

    fn read(&mut self, into: &mut [u8]) -> Result<usize, Failed>
        ensures bound { ReadsAtMost result into.new }
        ensures bytes { ReadConsumes (Some (bytes_left self.old)) (Some (bytes_left self.new)) result into.new }
        ensures cause { HasCause (read_faults self.old) (read_faults self.new) result }
        ensures calls { read_calls self.new ≡ min (read_calls self.old + 1) (2 ^ 64 - 1) }
        ensures counted { OnErr result (read_faults self.new ≡ min (read_faults self.old + 1) (2 ^ 64 - 1)) }
        ensures fails { IsErr result ↔ Contains (failing_reads self.old) (read_calls self.new) }
        ensures piece { IfOk result (λ n. n ≤ piece_of self.old) }
        ensures same_piece { piece_of self.new ≡ piece_of self.old }
        ensures same_fails { failing_reads self.new ≡ failing_reads self.old }
    {
        self.calls = self.calls.saturating_add(1);
        if is_listed(&self.fails, self.calls) {
            self.faults = self.faults.saturating_add(1);
            return Err(Failed);
        }
        let count = copy_from(&self.bytes, self.at, self.piece, into);
        self.at += count;
        Ok(count)
    }
}

/// A source in memory that never fails.
#[derive(Debug, Drop)]
pub struct PlainSource {
    bytes: Vec<u8>,
    at: usize,
    ghost within: { at ≤ length bytes.items },
}

impl PlainSource {
    ghost use Rattle.hs_io.specs.Memory.{plain_left};

    pub fn of(alloc: Global, bytes: &[u8]) -> Result<PlainSource, NoMemory>
        ensures { IfOk result (λ s. plain_left s ≡ bytes.now) }
    {
        Ok(PlainSource {
            bytes: Vec::from_slice(alloc, bytes)?,
            at: 0,
        })
    }
}

impl Source for PlainSource {
    ghost left = { λ s. Some (drop s.at s.bytes.items) };

    ghost faults = { λ _. 0 };

    fn read(&mut self, into: &mut [u8]) -> Result<usize, Failed> {
        let given = copy_from(&self.bytes, self.at, into.len(), into);
        self.at += given;
        Ok(given)
    }
}
