use hs_base::{Pos, Ty};

/// A form of types that a rule asks for. The last three are the types that can be compared, ordered and shown.
#[derive(Clone, Copy, Debug, PartialEq, Eq)]
pub enum Form {
    Maybe,
    Either,
    List,
    Pair,
    Cell,
    Async,
    Equal,
    Order,
    Show,
}

/// What was wanted of a part: one type, or a type of a form.
#[derive(Debug, Drop)]
pub enum Want {
    Exactly(Ty),
    Form(Form),
}

/// Why a script is refused: the broken rule at the least position, and at one position the first in this list.
#[derive(Debug, Drop)]
pub enum TypeFault {
    /// An earlier definition has the same name.
    Twice(Pos),
    /// There is no such name.
    Unknown(Pos),
    /// The name is one of another sort.
    Kind(Pos),
    /// The pure function is defined here or later.
    Forward(Pos),
    /// A call has `got` arguments where the function takes `want`.
    Arity { pos: Pos, want: u32, got: u32 },
    /// A part, or a body, has another type than its place asks for.
    Mismatch { pos: Pos, want: Want, got: Ty },
    /// The name is the 65th of its scope.
    Scope(Pos),
    /// The type has more than 64 nodes.
    Wide(Pos),
    /// The definition unfolds or expands too far.
    Large(Pos),
    /// Nothing is broken, but there is no `main :: IO ()` without parameters.
    NoMain,
    /// Memory was refused.
    NoMemory,
}
