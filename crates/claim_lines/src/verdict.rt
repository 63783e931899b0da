use outcome_listing::Cause;

/// What a list of outcomes decides of a claim.
#[derive(Clone, Copy, Debug, PartialEq, Eq)]
pub enum Verdict {
    Holds,
    /// The outcome of this number shows that it fails, and none before it does.
    FailsBy(u32),
    /// No outcome meets it, where one should.
    Fails,
    /// A schedule may run for ever, where each should end.
    FailsForEver,
    /// What is listed doesn't decide it, and for this cause there may be others.
    Open(Cause),
}

/// What all claims of a script come to.
#[derive(Clone, Copy, Debug, PartialEq, Eq)]
pub enum Judged {
    /// Each holds.
    Hold,
    /// Some fails.
    Fail,
    /// None fails, and some is open.
    Open,
}
