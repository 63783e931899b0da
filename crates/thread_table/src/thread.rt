use frame_stack::Stack;

/// A thread.
pub struct Thread {
    pub stack: Stack,
    pub blocked: bool,
    pub finished: bool,
    /// Whether it is in the list of the ready.
    pub queued: bool,
    /// Whether it is in the list of those who may be stranded.
    pub listed: bool,
}

// Written out, so that it is proved once, here, and not in each function above that lets one go.
impl Drop for Thread {
    fn drop(self) {
        let Thread {
            stack: _,
            blocked: _,
            finished: _,
            queued: _,
            listed: _,
        } = self;
    }
}
