/// What a capability does next.
#[derive(Drop)]
pub(crate) enum Decision<J> {
    /// There is an ending.
    Stop,
    /// It looks for a job.
    Look,
    /// It runs a job that no deque had room for.
    Run(J),
}
