/// Where a test can hold a slice. It is called outside the turn and means nothing to a contract.
pub trait Gate {
    /// Called before a slice begins: the number of the capability and the ticket of the job.
    fn before_slice(&self, cap: u32, ticket: u64);

    /// Called after the slice of this ticket was committed.
    fn committed(&self, ticket: u64);
}

/// A gate that does nothing.
#[derive(Clone, Copy, Debug)]
pub struct OpenGate;

impl Gate for OpenGate {
    fn before_slice(&self, _cap: u32, _ticket: u64) {}

    fn committed(&self, _ticket: u64) {}
}
