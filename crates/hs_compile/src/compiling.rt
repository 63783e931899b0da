ghost use Rattle.std.specs.Prelude.{MatchResult};
ghost use Rattle.rules_code.specs.Codes.{body_of};
ghost use Rattle.hs_compile.specs.Verdicts.{Denied, IsAccepted, IsSpelled, Misspelled, script_limit};

use crate::refusal::{CompileFault, Refusal};
use hs_base::tree::Script;
use hs_core::expand;
use hs_lex::{LexFault, lex};
use hs_parse::{ParseFault, parse};
use hs_types::{TypeFault, check};
use rules_code::Code;
use rules_typing::Checked;
use std::alloc::Global;

/// The most bytes of a script.
const SCRIPT_LIMIT: usize = 1_048_576;

/// The code of the script that these bytes are, or why it is refused.
///
/// The code is that of the expansion of the script which `accept` answers for the same bytes.
pub fn compile(alloc: Global, bytes: &[u8]) -> Result<Code, CompileFault>
    ensures { MatchResult result (λ code. IsAccepted bytes.now (body_of code).of.value) (Denied bytes.now) }
{
    let checked = accept(alloc, bytes)?;
    match expand(alloc, &checked) {
        Ok(code) => Ok(code),
        Err(_) => Err(CompileFault::NoMemory),
    }
}

/// The script that these bytes are, with the fact that the typing rules accept it, or why it is refused.
pub fn accept(alloc: Global, bytes: &[u8]) -> Result<Checked, CompileFault>
    ensures { MatchResult result (λ checked. IsAccepted bytes.now checked.script) (Denied bytes.now) }
{
    let script = spelled(alloc, bytes)?;
    match check(alloc, script) {
        Ok(checked) => Ok(checked),
        Err(TypeFault::NoMemory) => Err(CompileFault::NoMemory),
        Err(fault) => Err(CompileFault::Refused(Refusal::Types(fault))),
    }
}

// The script that the tokens of these bytes spell.
fn spelled(alloc: Global, bytes: &[u8]) -> Result<Script, CompileFault>
    ensures { MatchResult result (λ script. IsSpelled bytes.now script) (Misspelled bytes.now) }
{
    if bytes.len() > SCRIPT_LIMIT {
        return Err(CompileFault::Refused(Refusal::TooLong));
    }
    let tokens = match lex(alloc, bytes) {
        Ok(tokens) => tokens,
        Err(LexFault::NoMemory) => return Err(CompileFault::NoMemory),
        Err(fault) => return Err(CompileFault::Refused(Refusal::Lex(fault))),
    };
    match parse(alloc, &tokens) {
        Ok(script) => Ok(script),
        Err(ParseFault::NoMemory) => Err(CompileFault::NoMemory),
        Err(fault) => Err(CompileFault::Refused(Refusal::Parse(fault))),
    }
}
