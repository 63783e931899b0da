//! `claims`: what the outcomes of a script decide of its claims.
ghost use Rattle.std.specs.Prelude.{◌≡◌, ◌<◌, ◌≤◌, ◌^◌, length, MatchResult};
ghost use Rattle.std.specs.Str.{chars};
ghost use Rattle.hs_compile.specs.Verdicts.{script_limit};
ghost use Rattle.claim_lines.specs.Reading.{HasClaims};
ghost use Rattle.conc_top.specs.Searches.{IsDecisionOf, IsUndecided, IsUnread};

use crate::ending::Ending;
use crate::listing::explored;
use claim_lines::{Claim, ClaimFault, Judged, judge, read_claims};
use conc_task::Search;
use hs_base::Txt;
use hs_items::Items;
use std::alloc::Global;

/// What the claims of the script come to, with a line for each, or the answer where nothing is decided.
pub(crate) fn judged(alloc: Global, sought: &Search) -> Result<(Judged, Txt), Ending>
    requires { length sought.now.script.items ≤ script_limit }
    ensures { MatchResult result (λ found. IsDecisionOf sought.now found.0 found.1) (IsUndecided sought.now) }
{
    let claims = claims_of(alloc, &sought.script)?;
    if claims.is_empty() {
        return Err(Ending::NoClaim);
    }
    let explored = explored(alloc, sought)?;
    Ok(judge(alloc, claims.as_slice(), &explored)?)
}

// The claims of these bytes. Those of an accepted script are a text.
fn claims_of(alloc: Global, bytes: &[u8]) -> Result<Items<Claim>, Ending>
    requires { length bytes.now ≤ script_limit }
    ensures { MatchResult result (HasClaims (chars bytes.now)) (IsUnread bytes.now) }
{
    let Ok(text) = std::str::from_utf8(bytes) else {
        return Err(Ending::Memory);
    };
    match read_claims(alloc, text) {
        Ok(claims) => Ok(claims),
        Err(ClaimFault::Refused(at)) => Err(Ending::ClaimRefused(at)),
        Err(ClaimFault::NoMemory) => Err(Ending::Memory),
    }
}
