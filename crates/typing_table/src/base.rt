/// A type without parts.
#[derive(Clone, Copy, Debug, PartialEq, Eq, PartialOrd, Ord)]
pub enum Base {
    Unit,
    Int,
    Bool,
    Text,
    Thread,
    Exn,
}
