//! The line of a verdict.
ghost use Rattle.std.specs.Prelude.{◌≡◌, ◌++◌, OnOk, string_bytes};
ghost use Rattle.claim_lines.specs.Verdicts.{verdict_words, verdict_line};

use crate::verdict::Verdict;
use outcome_listing::write_cause;
use std::alloc::AllocError;

fn write_words(text: &mut String, verdict: Verdict) -> Result<(), AllocError>
    ensures { OnOk result (string_bytes text.new ≡ string_bytes text.old ++ verdict_words verdict) }
{
    match verdict {
        Verdict::Holds => text.push_str("holds"),
        Verdict::FailsBy(number) => write!(text, "fails: outcome {number}"),
        Verdict::Fails => text.push_str("fails"),
        Verdict::FailsForEver => text.push_str("fails: a schedule may run for ever"),
        Verdict::Open(cause) => {
            text.push_str("open: ")?;
            write_cause(text, cause)
        }
    }
}

/// The verdict on the claim of this line.
pub(crate) fn write_verdict(
    text: &mut String,
    line: u32,
    verdict: Verdict,
) -> Result<(), AllocError>
    ensures { OnOk result (string_bytes text.new ≡ string_bytes text.old ++ verdict_line line verdict) }
{
    write!(text, "line {line}: ")?;
    write_words(text, verdict)?;
    text.push_str("\n")
}
