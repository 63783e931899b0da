//! A witness, written down.
ghost use Rattle.std.specs.Prelude.{◌≡◌, IfOk};
ghost use Rattle.trace_text.specs.spelling.Traces.{document_of};

use hs_base::{NoMemory, Txt};
use outcome_listing::Outcome;
use std::alloc::Global;
use trace_text::write_document;

/// The document of an outcome's witness and of the bytes of its script, as `verify` takes it. The bytes have to be UTF-8, as those
/// of each accepted script are; for others the answer is want of memory.
pub fn document(alloc: Global, outcome: &Outcome, script: &[u8]) -> Result<Txt, NoMemory>
    ensures { IfOk result (λ text. text ≡ document_of outcome.now.witness.list script.now) }
{
    let bytes = write_document(alloc, &outcome.witness, script)?;
    match String::from_utf8(bytes) {
        Ok(text) => Txt::from_string(text),
        Err(_) => Err(NoMemory),
    }
}
