ghost use Rattle.std.specs.Prelude.{◌≡◌, ◌≤◌, ◌+◌, ◌-◌, ◌∷◌, [], OnOk, min, max, length, drop};
ghost use Rattle.rules_expansion.specs.trees.Trees.{ex_of, exs_of, arms_of, links_of, sum_links_of, list_links_of};
ghost use Rattle.rules_typing.specs.Typing.{masked};
ghost use Rattle.rules_typing.specs.TypingSizes.{extent, extents, link_extents, arm_extents, body_extent, over, beside, higher};
ghost use Rattle.rules_typing.specs.Typing.{look};
ghost use Rattle.typing_parts.specs.Views.{scope_of, sigs_of};
ghost use Rattle.typing_extents.specs.Measuring.{Extends, ext_of, exts_of, MeasuredAs};

use crate::sizes::{add, greater};
use hs_base::NoMemory;
use hs_base::tree::forms::BinaryForm;
use hs_base::tree::{Expr, ExprArms, Link, ListLink, Name, SumLink};
use hs_items::Items;
use std::alloc::Global;
use typing_parts::entry::{Entry, Sorted};
use typing_parts::funs::Funs;
use typing_parts::table::Table;

/// How far an expression unfolds, in counts.
#[derive(Clone, Copy, Debug)]
pub struct Extent {
    pub size: u32,
    pub height: u32,
}

/// The scope of the place that is measured, as names alone, and how far the definitions before it unfold.
#[derive(Drop)]
pub struct Meter {
    pub scope: Table,
    pub extents: Items<Extent>,
}

pub fn nothing() -> Extent
    ensures { (result.size ≡ 0) × (result.height ≡ 0) }
{
    Extent { size: 0, height: 0 }
}

/// A node over its parts.
fn over(x: Extent) -> Extent
    ensures { (result.size ≡ min (1 + x.size) 1000001) × (result.height ≡ min (1 + x.height) 1000001) }
{
    Extent {
        size: add(1, x.size),
        height: add(1, x.height),
    }
}

/// Parts beside one another.
fn beside(x: Extent, y: Extent) -> Extent
    ensures { (result.size ≡ min (x.size + y.size) 1000001) × (result.height ≡ max x.height y.height) }
{
    Extent {
        size: add(x.size, y.size),
        height: greater(x.height, y.height),
    }
}

/// An operator of a chain and its operand.
fn wider(x: Extent) -> Extent
    ensures { (result.size ≡ min (1 + x.size) 1000001) × (result.height ≡ x.height) }
{
    Extent {
        size: add(1, x.size),
        height: x.height,
    }
}

/// A chain over its parts.
fn higher(x: Extent) -> Extent
    ensures { (result.size ≡ x.size) × (result.height ≡ min (1 + x.height) 1000001) }
{
    Extent {
        size: x.size,
        height: add(1, x.height),
    }
}

/// The greater size and the greater height.
pub fn worse(x: Extent, y: Extent) -> Extent
    ensures { (result.size ≡ max x.size y.size) × (result.height ≡ max x.height y.height) }
{
    Extent {
        size: greater(x.size, y.size),
        height: greater(x.height, y.height),
    }
}

impl Meter {
    #[tactic(auto, using(typing_parts::proofs::Tables::table_rules))]
    pub fn bind(&mut self, alloc: Global, x: &Name) -> Result<(), NoMemory>
        ensures { OnOk result ((scope_of [] self.new.scope.items ≡ masked x.now ∷ scope_of [] self.old.scope.items) × (self.new.extents ≡ self.old.extents)) }
    {
        self.scope.push(Entry {
            text: x.text.copy(alloc)?,
            sort: Sorted::Masking,
        })
    }

    #[tactic(auto, using(typing_parts::proofs::Tables::table_rules))]
    pub fn unbind(&mut self)
        ensures { (scope_of [] self.new.scope.items ≡ drop 1 (scope_of [] self.old.scope.items)) × (self.new.extents ≡ self.old.extents) }
    {
        self.scope.pop();
    }

    /// How many names are bound.
    #[tactic(auto, using(typing_parts::proofs::Tables::table_rules))]
    pub fn mark(&self) -> usize
        ensures { result ≡ length (scope_of [] self.now.scope.items) }
    {
        self.scope.len()
    }

    /// Takes the names off that came after the first `mark`.
    #[tactic(auto, using(crate::proofs::Meters::back_rules))]
    pub fn back_to(&mut self, mark: usize)
        requires { mark ≤ length (scope_of [] self.old.scope.items) }
        ensures { (scope_of [] self.new.scope.items ≡ drop (length (scope_of [] self.old.scope.items) - mark) (scope_of [] self.old.scope.items)) × (self.new.extents ≡ self.old.extents) }
    {
        self.scope.back_to(mark);
    }

    /// What a name unfolds to, beside its own node.
    #[tactic(auto, using(crate::proofs::Meters::meter_rules, typing_parts::proofs::Tables::table_rules, typing_parts::proofs::Indexes::find_sigs))]
    fn name(&self, funs: &Funs, x: &Name) -> Extent
        ensures { Extends self.now self.now result (body_extent (sigs_of funs.now.types.nodes funs.now.sigs) (exts_of self.now.extents) x.now.text (look (scope_of [] self.now.scope.items) x.now.text)) }
    {
        match self.scope.look(&x.text) {
            Some(_) => nothing(),
            None => match funs.find(&x.text) {
                None => nothing(),
                Some(f) => match self.extents.get(f.place) {
                    None => nothing(),
                    Some(y) => Extent {
                        size: add(0, y.size),
                        height: add(0, y.height),
                    },
                },
            },
        }
    }

    /// How far an expression unfolds.
    #[cycle(extents)]
    pub fn extent(&mut self, alloc: Global, funs: &Funs, e: &Expr) -> Result<Extent, NoMemory>
        ensures { MeasuredAs funs.now self.old self.new result (λ gs xs s. extent gs xs s (ex_of e.now)) }
    {
        match e {
            Expr::Int(_, _) => Ok(over(nothing())),
            Expr::Text(_, _) => Ok(over(nothing())),
            Expr::Constant(_, _) => Ok(over(nothing())),
            Expr::Unit(_) => Ok(over(nothing())),
            Expr::Empty(_, _, _) => Ok(over(nothing())),
            Expr::Unary(_, _, a) => self.around(alloc, funs, a.get()),
            Expr::Side(_, _, _, _, a) => self.around(alloc, funs, a.get()),
            Expr::Compare(a, _, _, b) => self.around_both(alloc, funs, a.get(), b.get()),
            Expr::Div(_, a, b) => self.around_both(alloc, funs, a.get(), b.get()),
            Expr::Mod(_, a, b) => self.around_both(alloc, funs, a.get(), b.get()),
            Expr::Pair(_, a, b) => self.around_both(alloc, funs, a.get(), b.get()),
            Expr::If(_, c, a, b) => {
                let x = self.extent(alloc, funs, c.get())?;
                let y = self.extent(alloc, funs, a.get())?;
                self.around_two(alloc, funs, b.get(), beside(x, y))
            }
            Expr::Let(_, v, a, b) => {
                let x = self.extent(alloc, funs, a.get())?;
                let y = self.under(alloc, funs, v, b.get())?;
                Ok(over(beside(x, y)))
            }
            Expr::Or(a, ks) => self.chain(alloc, funs, ks, BinaryForm::Or, a.get()),
            Expr::And(a, ks) => self.chain(alloc, funs, ks, BinaryForm::And, a.get()),
            Expr::Product(a, ks) => self.chain(alloc, funs, ks, BinaryForm::Times, a.get()),
            Expr::Sum(a, ks) => {
                let x = self.extent(alloc, funs, a.get())?;
                let y = self.sum_links(alloc, funs, ks)?;
                Ok(higher(beside(x, y)))
            }
            Expr::Cons(a, ks) => {
                let x = self.extent(alloc, funs, a.get())?;
                let y = self.list_links(alloc, funs, ks)?;
                Ok(higher(beside(x, y)))
            }
            Expr::Call(f, es) => {
                let own = self.name(funs, f);
                let given = self.parts(alloc, funs, es)?;
                Ok(over(beside(own, given)))
            }
            Expr::List(_, es) => Ok(over(self.parts(alloc, funs, es)?)),
            Expr::Case(_, a, arms) => {
                let x = self.extent(alloc, funs, a.get())?;
                let y = self.arms(alloc, funs, arms.get())?;
                Ok(over(beside(x, y)))
            }
        }
    }

    /// A node over one part.
    #[cycle(extents)]
    fn around(&mut self, alloc: Global, funs: &Funs, a: &Expr) -> Result<Extent, NoMemory>
        ensures { MeasuredAs funs.now self.old self.new result (λ gs xs s. over (extent gs xs s (ex_of a.now))) }
    {
        let x = self.extent(alloc, funs, a)?;
        Ok(over(x))
    }

    /// A node over two parts.
    #[cycle(extents)]
    fn around_both(
        &mut self,
        alloc: Global,
        funs: &Funs,
        a: &Expr,
        b: &Expr,
    ) -> Result<Extent, NoMemory>
        ensures { MeasuredAs funs.now self.old self.new result (λ gs xs s. over (beside (extent gs xs s (ex_of a.now)) (extent gs xs s (ex_of b.now)))) }
    {
        let x = self.extent(alloc, funs, a)?;
        self.around_two(alloc, funs, b, x)
    }

    /// A node over two parts, after its first.
    #[cycle(extents)]
    fn around_two(
        &mut self,
        alloc: Global,
        funs: &Funs,
        b: &Expr,
        x: Extent,
    ) -> Result<Extent, NoMemory>
        ensures { MeasuredAs funs.now self.old self.new result (λ gs xs s. over (beside (ext_of x) (extent gs xs s (ex_of b.now)))) }
    {
        let y = self.extent(alloc, funs, b)?;
        Ok(over(beside(x, y)))
    }

    #[cycle(extents)]
    fn parts(&mut self, alloc: Global, funs: &Funs, es: &Items<Expr>) -> Result<Extent, NoMemory>
        ensures { MeasuredAs funs.now self.old self.new result (λ gs xs s. extents gs xs s (exs_of es.now)) }
    {
        let mut x = nothing();
        'parts: for e in es.as_slice() {
            let y = self.extent(alloc, funs, e)?;
            x = beside(x, y);
        }
        Ok(x)
    }

    /// An operand and the links of one operator.
    #[cycle(extents)]
    fn chain(
        &mut self,
        alloc: Global,
        funs: &Funs,
        ks: &Items<Link>,
        o: BinaryForm,
        a: &Expr,
    ) -> Result<Extent, NoMemory>
        ensures { MeasuredAs funs.now self.old self.new result (λ gs xs s. higher (beside (extent gs xs s (ex_of a.now)) (link_extents gs xs s (links_of o ks.now)))) }
    {
        let x = self.extent(alloc, funs, a)?;
        let y = self.links(alloc, funs, o, ks)?;
        Ok(higher(beside(x, y)))
    }

    #[cycle(extents)]
    fn links(
        &mut self,
        alloc: Global,
        funs: &Funs,
        o: BinaryForm,
        ks: &Items<Link>,
    ) -> Result<Extent, NoMemory>
        ensures { MeasuredAs funs.now self.old self.new result (λ gs xs s. link_extents gs xs s (links_of o ks.now)) }
    {
        let mut x = nothing();
        'links: for k in ks.as_slice() {
            let y = self.extent(alloc, funs, &k.operand)?;
            x = beside(x, wider(y));
        }
        Ok(x)
    }

    #[cycle(extents)]
    fn sum_links(
        &mut self,
        alloc: Global,
        funs: &Funs,
        ks: &Items<SumLink>,
    ) -> Result<Extent, NoMemory>
        ensures { MeasuredAs funs.now self.old self.new result (λ gs xs s. link_extents gs xs s (sum_links_of ks.now)) }
    {
        let mut x = nothing();
        'links: for k in ks.as_slice() {
            let y = self.extent(alloc, funs, &k.operand)?;
            x = beside(x, wider(y));
        }
        Ok(x)
    }

    #[cycle(extents)]
    fn list_links(
        &mut self,
        alloc: Global,
        funs: &Funs,
        ks: &Items<ListLink>,
    ) -> Result<Extent, NoMemory>
        ensures { MeasuredAs funs.now self.old self.new result (λ gs xs s. link_extents gs xs s (list_links_of ks.now)) }
    {
        let mut x = nothing();
        'links: for k in ks.as_slice() {
            let y = self.extent(alloc, funs, &k.operand)?;
            x = beside(x, wider(y));
        }
        Ok(x)
    }

    #[cycle(extents)]
    #[tactic(auto, using(rules_expansion::proofs::trees_lemmas::Equations::arms_rules))]
    fn arms(&mut self, alloc: Global, funs: &Funs, arms: &ExprArms) -> Result<Extent, NoMemory>
        ensures { MeasuredAs funs.now self.old self.new result (λ gs xs s. arm_extents gs xs s (arms_of arms.now)) }
    {
        match arms {
            ExprArms::OfMaybe(a, x, b) => {
                let y = self.extent(alloc, funs, a)?;
                let z = self.under(alloc, funs, x, b)?;
                Ok(beside(y, z))
            }
            ExprArms::OfEither(v, a, w, b) => {
                let y = self.under(alloc, funs, v, a)?;
                let z = self.under(alloc, funs, w, b)?;
                Ok(beside(y, z))
            }
            ExprArms::OfList(a, v, w, b) => {
                let y = self.extent(alloc, funs, a)?;
                let z = self.under_two(alloc, funs, v, w, b)?;
                Ok(beside(y, z))
            }
            ExprArms::OfPair(v, w, a) => {
                let y = self.under_two(alloc, funs, v, w, a)?;
                Ok(y)
            }
        }
    }

    #[cycle(extents)]
    fn under(&mut self, alloc: Global, funs: &Funs, v: &Name, e: &Expr) -> Result<Extent, NoMemory>
        ensures { MeasuredAs funs.now self.old self.new result (λ gs xs s. extent gs xs (masked v.now ∷ s) (ex_of e.now)) }
    {
        self.bind(alloc, v)?;
        let x = self.extent(alloc, funs, e)?;
        self.unbind();
        Ok(x)
    }

    #[cycle(extents)]
    fn under_two(
        &mut self,
        alloc: Global,
        funs: &Funs,
        v: &Name,
        w: &Name,
        e: &Expr,
    ) -> Result<Extent, NoMemory>
        ensures { MeasuredAs funs.now self.old self.new result (λ gs xs s. extent gs xs (masked w.now ∷ masked v.now ∷ s) (ex_of e.now)) }
    {
        self.bind(alloc, v)?;
        let x = self.under(alloc, funs, w, e)?;
        self.unbind();
        Ok(x)
    }
}
