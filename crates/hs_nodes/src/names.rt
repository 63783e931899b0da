//! The names of a scope: those that a script writes, and those that expansions add.
ghost use Rattle.std.specs.Prelude.{◌≡◌, ◌++◌, ◌∷◌, [], OnOk, List, bytes_eq};
ghost use Rattle.rules_expansion.specs.Names.{Written, Added, same_name};
ghost use Rattle.hs_nodes.specs.Names.{name_of};

use hs_base::{NoMemory, Txt};
use hs_items::Items;
use rules_expansion::Hidden;
use std::alloc::Global;

/// A name of a scope.
#[derive(Debug, Drop)]
pub enum ScopedName {
    Written(Txt),
    Added(Hidden),
}

impl ScopedName {
    ghost use Rattle.std.specs.Prelude.{◌≡◌};
    ghost use Rattle.rules_expansion.specs.Names.{Written, Added, same_name};
    ghost use Rattle.hs_nodes.specs.Names.{name_of};

    /// Whether it is this name of the script.
    pub fn is_written(&self, x: &Txt) -> bool
        ensures { result ≡ same_name (Written x.now) (name_of self.now) }
    {
        match self {
            ScopedName::Written(y) => is_text(x, y),
            ScopedName::Added(_) => false,
        }
    }

    /// Whether it is this added name.
    pub fn is_added(&self, h: Hidden) -> bool
        ensures { result ≡ same_name (Added h) (name_of self.now) }
    {
        match self {
            ScopedName::Written(_) => false,
            ScopedName::Added(k) => h.number() == k.number(),
        }
    }
}

/// Whether the two texts have the same bytes.
pub fn is_text(a: &Txt, b: &Txt) -> bool
    ensures { result ≡ bytes_eq a.now b.now }
{
    a.as_str() == b.as_str()
}

/// Puts a name of the script on.
pub fn bind(scope: &mut Items<ScopedName>, alloc: Global, x: &Txt) -> Result<(), NoMemory>
    ensures { OnOk result (scope.new ≡ scope.old ++ ScopedName.Written x.now ∷ []) }
{
    scope.add(ScopedName::Written(x.copy(alloc)?))?;
    Ok(())
}

/// Puts an added name on.
pub fn bind_added(scope: &mut Items<ScopedName>, h: Hidden) -> Result<(), NoMemory>
    ensures { OnOk result (scope.new ≡ scope.old ++ ScopedName.Added h ∷ []) }
{
    scope.add(ScopedName::Added(h))?;
    Ok(())
}

/// Takes the last name off.
#[tactic(auto, using(crate::proofs::Scopes::name_off))]
pub fn off(scope: &mut Items<ScopedName>)
    ensures { (xs : List ScopedName) (x : ScopedName) → scope.old ≡ xs ++ x ∷ [] → scope.new ≡ xs }
{
    let _ = scope.pop();
}
