//! Keys of parts and frames.
ghost use Rattle.std.specs.Prelude.{◌≡◌, ◌++◌, OnOk};
ghost use Rattle.rules_meaning.specs.Values.{values_of};
ghost use Rattle.number_tables.specs.value_keys.Keys.{values_key};
ghost use Rattle.term_graph.specs.tables.Keys as keys;
ghost use Rattle.term_graph.specs.tables.Keys.{action_key, waiting_key, part_key, frame_key};

use hs_base::{NoMemory, Value};
use local_steps::environments::{Env, Waiting};
use local_steps::{Active, Frame};
use number_tables::value_keys::{mask_number, put, put_exn, put_value, put_wide};
use rules_code::{ActId, Primitive};
use std::alloc::Global;

/// The number of a primitive.
fn primitive_number(primitive: Primitive) -> u32
    ensures { result ≡ keys.primitive_number primitive }
{
    primitive as u32
}

/// Puts the key of values at the end of a list.
fn put_values(values: &[Value], out: &mut Vec<u32>) -> Result<(), NoMemory>
    ensures { OnOk result (out.new.items ≡ out.old.items ++ values_key (values_of values.now)) }
{
    for value in values {
        put_value(value, out)?;
    }
    put(out, 0)
}

/// Puts the key of an action with the values of its slots at the end of a list.
fn put_action(at: ActId, env: &Env, out: &mut Vec<u32>) -> Result<(), NoMemory>
    ensures { OnOk result (out.new.items ≡ out.old.items ++ action_key at env.now) }
{
    put_wide(out, at.0 as u64)?;
    for slot in 0..env.len() {
        match env.get(slot) {
            Some(value) => put_value(value, out)?,
            None => unreachable!(),
        }
    }
    put(out, 0)
}

/// The same with a unit in the next slot, which waits for a value.
fn put_waiting(
    alloc: Global,
    at: ActId,
    waiting: &Waiting,
    out: &mut Vec<u32>,
) -> Result<(), NoMemory>
    ensures { OnOk result (out.new.items ≡ out.old.items ++ waiting_key at waiting.now) }
{
    let env = waiting.copy(alloc)?.with(Value::Unit);
    put_action(at, &env, out)
}

/// Puts the key of a frame at the end of a list.
pub fn put_frame(alloc: Global, frame: &Frame, out: &mut Vec<u32>) -> Result<(), NoMemory>
    ensures { OnOk result (out.new.items ≡ out.old.items ++ frame_key frame.now) }
{
    match frame {
        Frame::Bind(at, env) => {
            put(out, 1)?;
            put_waiting(alloc, *at, env, out)
        }
        Frame::Then(at, env) => {
            put(out, 2)?;
            put_action(*at, env, out)
        }
        Frame::Catch(at, env) => {
            put(out, 3)?;
            put_waiting(alloc, *at, env, out)
        }
        Frame::Mask(masking) => {
            put(out, 4)?;
            put(out, mask_number(masking.inside))
        }
    }
}

/// Puts the key of an active part at the end of a list.
pub fn put_part(part: &Active, out: &mut Vec<u32>) -> Result<(), NoMemory>
    ensures { OnOk result (out.new.items ≡ out.old.items ++ part_key part.now) }
{
    match part {
        Active::Doing(at, env) => {
            put(out, 1)?;
            put_action(*at, env, out)
        }
        Active::Ret(value) => {
            put(out, 2)?;
            put_value(value, out)
        }
        Active::Throw(exn) => {
            put(out, 3)?;
            put_exn(exn, out)
        }
        Active::Asks(primitive, values) => {
            put(out, 4)?;
            put(out, primitive_number(*primitive))?;
            put_values(values.as_slice(), out)
        }
        Active::Forks(at, env) => {
            put(out, 5)?;
            put_action(*at, env, out)
        }
        Active::ForksUnmask(at, env) => {
            put(out, 6)?;
            put_action(*at, env, out)
        }
    }
}
