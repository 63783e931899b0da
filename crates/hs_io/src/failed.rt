/// A read or a put that failed. The object that was asked has counted it.
#[derive(Clone, Copy, Debug, PartialEq, Eq)]
pub struct Failed;
