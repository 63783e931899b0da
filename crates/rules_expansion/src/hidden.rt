//! The names that expansions add.

/// A name that an expansion adds, by its role (own). No script can write one, and each has one role, so one serves every
/// use: an environment is read where it was built, and a later use of a role hides the earlier one.
#[derive(Clone, Copy, Debug, PartialEq, Eq)]
pub enum Hidden {
    /// the state that a form with a mask of its own restores
    Restorer,
    /// what the guarded action of a `finally` or a `modifyMVar_` gave
    Given,
    /// the exception that a form caught and throws on
    Caught,
    /// the cell of a `modifyMVar_`
    TheCell,
    /// the number of one use of `bracket`
    Instance,
    /// what the middle action of a `bracket` gave
    BracketResult,
    /// the exception that ended the middle action of a `bracket`
    BracketFault,
    /// the time that a `timeout` allows
    Allowed,
    /// what the action of a `timeout` gave
    InTime,
    /// the thread that a `timeout` runs in
    Owner,
    /// the exception that a `timeout` throws
    Expiry,
    /// the helper thread of a `timeout`
    Helper,
    /// the unmasked state of that helper
    HelperRestorer,
    /// the cell in which the thread of an async scope leaves how its action ended
    ScopeCell,
    /// the thread of an async scope
    Child,
    /// how the action of that thread ended
    ChildEnding,
    /// what the second block of a `withAsync` gave
    ScopeResult,
    /// what a wait for the end of a scope's thread read, where nothing else is asked
    Awaited,
    /// the async that a `wait` or a `cancel` is given
    Scope,
    /// how the action of another thread ended
    Ended,
    /// what an action gave that ended by itself
    ActionResult,
    /// the cell for the side of a `race` or a `concurrently` that ends first
    FirstEnd,
    /// how one side of them ended
    SideEnding,
    /// whether that side was the first
    WasFirst,
    /// the scope of the first side
    FirstSide,
    /// the scope of the second side
    SecondSide,
    /// what the first side of a `concurrently` gave
    FirstResult,
    /// what the second side of it gave
    SecondResult,
}

impl Hidden {
    ghost use Rattle.std.specs.Prelude.{◌≡◌};
    ghost use Rattle.rules_expansion.specs.Names.{hidden_number};

    /// A number of its own for each name.
    pub fn number(self) -> u8
        ensures { result ≡ hidden_number self }
    {
        match self {
            Hidden::Restorer => 1,
            Hidden::Given => 2,
            Hidden::Caught => 3,
            Hidden::TheCell => 4,
            Hidden::Instance => 5,
            Hidden::BracketResult => 6,
            Hidden::BracketFault => 7,
            Hidden::Allowed => 8,
            Hidden::InTime => 9,
            Hidden::Owner => 10,
            Hidden::Expiry => 11,
            Hidden::Helper => 12,
            Hidden::HelperRestorer => 13,
            Hidden::ScopeCell => 14,
            Hidden::Child => 15,
            Hidden::ChildEnding => 16,
            Hidden::ScopeResult => 17,
            Hidden::Awaited => 18,
            Hidden::Scope => 19,
            Hidden::Ended => 20,
            Hidden::ActionResult => 21,
            Hidden::FirstEnd => 22,
            Hidden::SideEnding => 23,
            Hidden::WasFirst => 24,
            Hidden::FirstSide => 25,
            Hidden::SecondSide => 26,
            Hidden::FirstResult => 27,
            Hidden::SecondResult => 28,
        }
    }
}
