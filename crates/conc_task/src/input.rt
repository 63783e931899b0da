//! Reading the source to its end, or to the first byte past the limit.
ghost use Rattle.std.specs.Prelude.{◌<◌, length};
ghost use Rattle.conc_task.specs.Inputs.{Adds, Reads};

use hs_io::Source;
use std::alloc::Global;

/// What the source had.
#[derive(Drop)]
pub enum Input {
    /// All its bytes, or the first ones where there are more than the limit.
    Bytes(Vec<u8>),
    /// A read failed.
    Fault,
    NoMemory,
}

pub fn read_input<S: Source>(alloc: Global, source: &mut S, limit: u32) -> Input
    ensures { Reads limit result (S.left source.old) (S.left source.new) (S.faults source.old) (S.faults source.new) }
{
    let limit = limit as usize;
    let mut chunk = [0u8; 4096];
    let mut bytes = Vec::new(alloc);
    while bytes.len() <= limit {
        let most = chunk.len().min(limit + 1 - bytes.len());
        match read_more(source, &mut chunk[..most], &mut bytes) {
            More::Taken => {}
            More::End => return Input::Bytes(bytes),
            More::Fault => return Input::Fault,
            More::NoMemory => return Input::NoMemory,
        }
    }
    Input::Bytes(bytes)
}

enum More {
    Taken,
    End,
    Fault,
    NoMemory,
}

// One read into the chunk. What it gave is added to the bytes.
fn read_more<S: Source>(source: &mut S, chunk: &mut [u8], bytes: &mut Vec<u8>) -> More
    requires { 0 < length chunk.old }
    ensures { Adds result (length chunk.new) (S.left source.old) (S.left source.new) bytes.old.items bytes.new.items (S.faults source.old) (S.faults source.new) }
{
    match source.read(chunk) {
        Err(_) => More::Fault,
        Ok(0) => More::End,
        Ok(count) => match bytes.extend_from_slice(&chunk[..count]) {
            Ok(()) => More::Taken,
            Err(_) => More::NoMemory,
        },
    }
}
