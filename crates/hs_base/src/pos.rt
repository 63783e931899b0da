/// A place in a script: line and column, both from 1. A column counts characters, a tab as one.
#[derive(Clone, Copy, Debug, PartialEq, Eq)]
pub struct Pos {
    pub line: u32,
    pub col: u32,
}
