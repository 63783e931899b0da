ghost use Rattle.std.specs.Prelude.{◌≡◌, ◌∷◌, IfOk, OnOk, drop};
ghost use Rattle.typing_table.specs.Meaning.{type_in};
ghost use Rattle.rules_typing.specs.Typing.{bound, masked};
ghost use Rattle.typing_judge.specs.Judging.{full, scope_faults, unless};
ghost use Rattle.typing_judge.specs.Least.{least};
ghost use Rattle.typing_parts.specs.Views.{opt_ty, part_of};
ghost use Rattle.typing_parts.specs.Judged.{Begun, names, kept};

use crate::checker::Checker;
use crate::entry::{Entry, Sorted};
use crate::first::Broken;
use crate::parts::{TypePart, that_part};
use hs_base::NoMemory;
use hs_base::tree::Name;
use typing_table::table::TypeTable;
use typing_table::ty::TypeTerm;

// A contract reads the scope by the table of types: so each method is given it, and those too whose code doesn't look at it.
#[tactic(auto, using(crate::proofs::Tables::table_rules))]
impl Checker {
    /// Whether the scope takes no more names.
    pub fn is_full(&self, _types: &TypeTable) -> bool
        ensures { result ≡ full (names _types.now.nodes self.now) }
    {
        self.scope.len() > 63
    }

    /// Binds a name to a type.
    pub fn bind(&mut self, _types: &TypeTable, x: &Name, t: TypeTerm) -> Result<(), NoMemory>
        ensures { OnOk result ((names _types.now.nodes self.new ≡ bound x.now (type_in _types.now.nodes t) ∷ names _types.now.nodes self.old) × (kept _types.now.nodes self.new ≡ kept _types.now.nodes self.old)) }
    {
        self.scope.push(Entry {
            text: x.text.copy(self.alloc)?,
            sort: Sorted::Value(t),
        })
    }

    /// Binds a name to a part of a type.
    pub fn bind_part(
        &mut self,
        types: &TypeTable,
        x: &Name,
        which: TypePart,
        t: &TypeTerm,
    ) -> Result<(), NoMemory>
        ensures { OnOk result ((names types.now.nodes self.new ≡ bound x.now (part_of which (type_in types.now.nodes t.now)) ∷ names types.now.nodes self.old) × (kept types.now.nodes self.new ≡ kept types.now.nodes self.old)) }
    {
        let t = that_part(self.alloc, types, which, t)?;
        self.bind(types, x, t)
    }

    /// Binds a masking name.
    pub fn bind_mask(&mut self, _types: &TypeTable, x: &Name) -> Result<(), NoMemory>
        ensures { OnOk result ((names _types.now.nodes self.new ≡ masked x.now ∷ names _types.now.nodes self.old) × (kept _types.now.nodes self.new ≡ kept _types.now.nodes self.old)) }
    {
        self.scope.push(Entry {
            text: x.text.copy(self.alloc)?,
            sort: Sorted::Masking,
        })
    }

    /// Notes where the scope takes no more names.
    pub fn check_room(&mut self, types: &TypeTable, x: &Name)
        ensures { (names types.now.nodes self.new ≡ names types.now.nodes self.old) × (kept types.now.nodes self.new ≡ least (kept types.now.nodes self.old) (scope_faults (names types.now.nodes self.old) x.now)) }
    {
        if self.is_full(types) {
            self.first.note(types, Broken::Scope(x.pos));
        }
    }

    /// Binds the name where it has a type and the scope takes one more.
    pub fn begin(
        &mut self,
        types: &TypeTable,
        x: &Name,
        t: Option<TypeTerm>,
    ) -> Result<bool, NoMemory>
        ensures { IfOk result (λ b. Begun types.now.nodes self.old self.new b x.now (unless (full (names types.now.nodes self.old)) (opt_ty types.now.nodes t))) }
    {
        if self.is_full(types) {
            return Ok(false);
        }
        match t {
            None => Ok(false),
            Some(t) => {
                self.bind(types, x, t)?;
                Ok(true)
            }
        }
    }

    /// Takes the last name off.
    pub fn unbind(&mut self, _types: &TypeTable)
        ensures { (names _types.now.nodes self.new ≡ drop 1 (names _types.now.nodes self.old)) × (kept _types.now.nodes self.new ≡ kept _types.now.nodes self.old) }
    {
        self.scope.pop();
    }
}
