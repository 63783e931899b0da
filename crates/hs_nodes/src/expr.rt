//! The nodes of expressions.
ghost use Rattle.std.specs.Prelude.{◌≡◌, ◌++◌, ◌∷◌, [], ◌+◌, length, IfOk};
ghost use Rattle.rules_expansion.specs.Names.{Written};
ghost use Rattle.rules_expansion.specs.trees.Trees.{ex_of, exs_of, arms_of, links_of, list_links_of, sum_links_of, constant_of, compare_form, sum_form, cons_form};
ghost use Rattle.hs_nodes.specs.Emitting.{nodes_of, arm_nodes, own1, two_nodes, literal_node, EmittedAs, EmittedAll, call_nodes, list_nodes, chain_nodes};

use crate::emitter::Emitter;
use crate::names::{bind, off};
use crate::places::Places;
use hs_base::tree::forms::{BinaryForm, SideForm, UnaryForm};
use hs_base::{
    CompareOp, ConsOp, Constant, Exn, Expr, ExprArms, Link, ListLink, NoMemory, SumLink, SumOp, Txt,
};
use hs_items::{Boxed, Items};
use rules_code::{ExprId, Node, NodeLink};
use std::alloc::Global;

fn constant(constant: Constant) -> Node
    ensures { result ≡ literal_node (constant_of constant) }
{
    match constant {
        Constant::True => Node::Bool(true),
        Constant::False => Node::Bool(false),
        Constant::ThreadKilled => Node::Exn(Exn::ThreadKilled),
        Constant::UserInterrupt => Node::Exn(Exn::UserInterrupt),
        Constant::DivideByZero => Node::Exn(Exn::DivideByZero),
        Constant::Overflow => Node::Exn(Exn::Overflow),
    }
}

fn compare_form(op: CompareOp) -> BinaryForm
    ensures { result ≡ compare_form op }
{
    match op {
        CompareOp::Equal => BinaryForm::Equal,
        CompareOp::Unequal => BinaryForm::Unequal,
        CompareOp::Less => BinaryForm::Less,
        CompareOp::AtMost => BinaryForm::AtMost,
        CompareOp::Greater => BinaryForm::Greater,
        CompareOp::AtLeast => BinaryForm::AtLeast,
    }
}

fn sum_form(op: SumOp) -> BinaryForm
    ensures { result ≡ sum_form op }
{
    match op {
        SumOp::Plus => BinaryForm::Plus,
        SumOp::Minus => BinaryForm::Minus,
    }
}

fn cons_form(op: ConsOp) -> BinaryForm
    ensures { result ≡ cons_form op }
{
    match op {
        ConsOp::Cons => BinaryForm::Cons,
        ConsOp::Append => BinaryForm::Append,
    }
}

#[tactic(auto, using(crate::proofs::Scopes::emit_rules, rules_expansion::proofs::trees_lemmas::Equations::ex_rules, rules_expansion::proofs::trees_lemmas::Equations::arms_rules))]
impl Emitter {
    /// Adds the node of a form with one part.
    fn unary(&mut self, form: UnaryForm, part: ExprId) -> Result<ExprId, NoMemory>
        ensures { IfOk result (λ id. (id.0 ≡ length self.old.nodes) × (self.new.nodes ≡ self.old.nodes ++ Node.Unary form part ∷ []) × (self.new.scope ≡ self.old.scope)) }
    {
        let id = self.add(Node::Unary(form, part))?;
        Ok(id)
    }

    /// Adds the nodes of an expression, and answers the number of its last.
    #[cycle(emit)]
    pub fn expr(&mut self, alloc: Global, places: &Places, e: &Expr) -> Result<ExprId, NoMemory>
        ensures { EmittedAs places.now self.old self.new result (λ rs s n. nodes_of rs s n (ex_of e.now)) }
    {
        match e {
            Expr::If(_, c, a, b) => {
                let h = self.part(alloc, places, c)?;
                let i = self.part(alloc, places, a)?;
                self.third(alloc, places, h, i, b)
            }
            Expr::Case(_, c, arms) => {
                let h = self.part(alloc, places, c)?;
                self.arms(alloc, places, h, arms.get())
            }
            Expr::Let(_, x, a, b) => {
                let i = self.part(alloc, places, a)?;
                self.given(alloc, places, i, &x.text, b)
            }
            Expr::Or(a, links) => {
                let i = self.part(alloc, places, a)?;
                self.chain(alloc, places, i, BinaryForm::Or, links)
            }
            Expr::And(a, links) => {
                let i = self.part(alloc, places, a)?;
                self.chain(alloc, places, i, BinaryForm::And, links)
            }
            Expr::Compare(a, op, _, b) => self.both(alloc, places, compare_form(*op), a, b),
            Expr::Cons(a, links) => {
                let i = self.part(alloc, places, a)?;
                self.conses(alloc, places, i, links)
            }
            Expr::Sum(a, links) => {
                let i = self.part(alloc, places, a)?;
                self.sum_chain(alloc, places, i, links)
            }
            Expr::Product(a, links) => {
                let i = self.part(alloc, places, a)?;
                self.chain(alloc, places, i, BinaryForm::Times, links)
            }
            Expr::Call(x, es) => self.call(alloc, places, &x.text, es),
            Expr::Unary(form, _, a) => self.single(alloc, places, *form, a),
            Expr::Empty(form, _, _) => self.add(Node::Empty(*form)),
            Expr::Side(form, _, _, _, a) => self.aside(alloc, places, *form, a),
            Expr::Div(_, a, b) => self.both(alloc, places, BinaryForm::Div, a, b),
            Expr::Mod(_, a, b) => self.both(alloc, places, BinaryForm::Mod, a, b),
            Expr::Int(_, m) => self.add(Node::Int(*m)),
            Expr::Text(_, text) => self.add(Node::Text(text.copy(alloc)?)),
            Expr::Constant(_, c) => self.add(constant(*c)),
            Expr::Unit(_) => self.add(Node::Unit),
            Expr::Pair(_, a, b) => self.both(alloc, places, BinaryForm::Pair, a, b),
            Expr::List(_, es) => self.items(alloc, places, es),
        }
    }

    /// A part of an expression.
    #[cycle(emit)]
    fn part(&mut self, alloc: Global, places: &Places, a: &Boxed<Expr>) -> Result<ExprId, NoMemory>
        ensures { EmittedAs places.now self.old self.new result (λ rs s n. nodes_of rs s n (ex_of a.now)) }
    {
        self.expr(alloc, places, a.get())
    }

    /// A form with one part.
    #[cycle(emit)]
    fn single(
        &mut self,
        alloc: Global,
        places: &Places,
        form: UnaryForm,
        a: &Boxed<Expr>,
    ) -> Result<ExprId, NoMemory>
        ensures { EmittedAs places.now self.old self.new result (λ rs s n. own1 n (nodes_of rs s n (ex_of a.now)) (Node.Unary form)) }
    {
        let i = self.expr(alloc, places, a.get())?;
        self.unary(form, i)
    }

    /// `Left` or `Right`.
    #[cycle(emit)]
    fn aside(
        &mut self,
        alloc: Global,
        places: &Places,
        form: SideForm,
        a: &Boxed<Expr>,
    ) -> Result<ExprId, NoMemory>
        ensures { EmittedAs places.now self.old self.new result (λ rs s n. own1 n (nodes_of rs s n (ex_of a.now)) (Node.Side form)) }
    {
        let i = self.expr(alloc, places, a.get())?;
        self.add(Node::Side(form, i))
    }

    /// A form with two parts.
    #[cycle(emit)]
    fn both(
        &mut self,
        alloc: Global,
        places: &Places,
        form: BinaryForm,
        a: &Boxed<Expr>,
        b: &Boxed<Expr>,
    ) -> Result<ExprId, NoMemory>
        ensures { EmittedAs places.now self.old self.new result (λ rs s n. two_nodes rs s n (ex_of a.now) (ex_of b.now) (Node.Binary form)) }
    {
        let i = self.part(alloc, places, a)?;
        self.second(alloc, places, form, i, b)
    }

    /// A form with two parts, after its first.
    #[cycle(emit)]
    fn second(
        &mut self,
        alloc: Global,
        places: &Places,
        form: BinaryForm,
        i: ExprId,
        b: &Boxed<Expr>,
    ) -> Result<ExprId, NoMemory>
        ensures { EmittedAs places.now self.old self.new result (λ rs s n. own1 n (nodes_of rs s n (ex_of b.now)) (Node.Binary form i)) }
    {
        let j = self.expr(alloc, places, b.get())?;
        self.add(Node::Binary(form, i, j))
    }

    /// `if`, after its condition and its first arm.
    #[cycle(emit)]
    fn third(
        &mut self,
        alloc: Global,
        places: &Places,
        h: ExprId,
        i: ExprId,
        b: &Boxed<Expr>,
    ) -> Result<ExprId, NoMemory>
        ensures { EmittedAs places.now self.old self.new result (λ rs s n. own1 n (nodes_of rs s n (ex_of b.now)) (Node.If h i)) }
    {
        let j = self.expr(alloc, places, b.get())?;
        self.add(Node::If(h, i, j))
    }

    /// `let`, after what its name stands for.
    #[cycle(emit)]
    fn given(
        &mut self,
        alloc: Global,
        places: &Places,
        i: ExprId,
        x: &Txt,
        b: &Boxed<Expr>,
    ) -> Result<ExprId, NoMemory>
        ensures { EmittedAs places.now self.old self.new result (λ rs s n. own1 n (nodes_of rs (Written x.now ∷ s) n (ex_of b.now)) (Node.Let i)) }
    {
        let j = self.under(alloc, places, x, b.get())?;
        self.add(Node::Let(i, j))
    }

    /// An expression under one more name.
    #[cycle(emit)]
    fn under(
        &mut self,
        alloc: Global,
        places: &Places,
        x: &Txt,
        a: &Expr,
    ) -> Result<ExprId, NoMemory>
        ensures { EmittedAs places.now self.old self.new result (λ rs s n. nodes_of rs (Written x.now ∷ s) n (ex_of a.now)) }
    {
        bind(&mut self.scope, alloc, x)?;
        let id = self.expr(alloc, places, a)?;
        off(&mut self.scope);
        Ok(id)
    }

    /// An expression under two more names.
    #[cycle(emit)]
    fn under_two(
        &mut self,
        alloc: Global,
        places: &Places,
        x: &Txt,
        y: &Txt,
        a: &Expr,
    ) -> Result<ExprId, NoMemory>
        ensures { EmittedAs places.now self.old self.new result (λ rs s n. nodes_of rs (Written y.now ∷ Written x.now ∷ s) n (ex_of a.now)) }
    {
        bind(&mut self.scope, alloc, x)?;
        let id = self.under(alloc, places, y, a)?;
        off(&mut self.scope);
        Ok(id)
    }

    /// A name, or a call.
    #[cycle(emit)]
    fn call(
        &mut self,
        alloc: Global,
        places: &Places,
        x: &Txt,
        es: &Items<Expr>,
    ) -> Result<ExprId, NoMemory>
        ensures { EmittedAs places.now self.old self.new result (λ rs s n. call_nodes rs s n x.now (exs_of es.now)) }
    {
        match self.slot(x) {
            Some(k) => self.add(Node::Slot(k)),
            None => {
                let ids = self.all(alloc, places, es)?;
                let body = self.place(places, x, es.len());
                self.add(Node::Call(body, ids))
            }
        }
    }

    /// The items of a list.
    #[cycle(emit)]
    fn items(
        &mut self,
        alloc: Global,
        places: &Places,
        es: &Items<Expr>,
    ) -> Result<ExprId, NoMemory>
        ensures { EmittedAs places.now self.old self.new result (λ rs s n. list_nodes rs s n (exs_of es.now)) }
    {
        let ids = self.all(alloc, places, es)?;
        self.add(Node::List(ids))
    }

    /// Adds the nodes of expressions in a row, and answers their numbers.
    #[cycle(emit)]
    pub fn all(
        &mut self,
        alloc: Global,
        places: &Places,
        es: &Items<Expr>,
    ) -> Result<Items<ExprId>, NoMemory>
        ensures { IfOk result (λ ids. EmittedAll places.now self.old self.new ids (exs_of es.now)) }
    {
        let mut ids = Items::new(alloc);
        'each: for e in es.as_slice() {
            let id = self.expr(alloc, places, e)?;
            ids.add(id)?;
        }
        Ok(ids)
    }

    /// A chain of one operator, after its first operand.
    #[cycle(emit)]
    fn chain(
        &mut self,
        alloc: Global,
        places: &Places,
        first: ExprId,
        form: BinaryForm,
        links: &Items<Link>,
    ) -> Result<ExprId, NoMemory>
        ensures { EmittedAs places.now self.old self.new result (λ rs s n. chain_nodes rs s n (links_of form links.now) (Node.Chain first)) }
    {
        let mut ks = Items::new(alloc);
        'each: for link in links.as_slice() {
            let operand = self.expr(alloc, places, &link.operand)?;
            ks.add(NodeLink { form, operand })?;
        }
        self.add(Node::Chain(first, ks))
    }

    /// A chain of `+` and `-`, after its first operand.
    #[cycle(emit)]
    fn sum_chain(
        &mut self,
        alloc: Global,
        places: &Places,
        first: ExprId,
        links: &Items<SumLink>,
    ) -> Result<ExprId, NoMemory>
        ensures { EmittedAs places.now self.old self.new result (λ rs s n. chain_nodes rs s n (sum_links_of links.now) (Node.Chain first)) }
    {
        let mut ks = Items::new(alloc);
        'each: for link in links.as_slice() {
            let operand = self.expr(alloc, places, &link.operand)?;
            let form = sum_form(link.op);
            ks.add(NodeLink { form, operand })?;
        }
        self.add(Node::Chain(first, ks))
    }

    /// A chain of `:` and `++`, after its first operand.
    #[cycle(emit)]
    fn conses(
        &mut self,
        alloc: Global,
        places: &Places,
        first: ExprId,
        links: &Items<ListLink>,
    ) -> Result<ExprId, NoMemory>
        ensures { EmittedAs places.now self.old self.new result (λ rs s n. chain_nodes rs s n (list_links_of links.now) (Node.Conses first)) }
    {
        let mut ks = Items::new(alloc);
        'each: for link in links.as_slice() {
            let operand = self.expr(alloc, places, &link.operand)?;
            let form = cons_form(link.op);
            ks.add(NodeLink { form, operand })?;
        }
        self.add(Node::Conses(first, ks))
    }

    /// The arms of a `case`, after what it looks at.
    #[cycle(emit)]
    fn arms(
        &mut self,
        alloc: Global,
        places: &Places,
        h: ExprId,
        arms: &ExprArms,
    ) -> Result<ExprId, NoMemory>
        ensures { EmittedAs places.now self.old self.new result (λ rs s n. arm_nodes rs s n h (arms_of arms.now)) }
    {
        match arms {
            ExprArms::OfMaybe(a, x, b) => {
                let i = self.expr(alloc, places, a)?;
                let j = self.under(alloc, places, &x.text, b)?;
                self.add(Node::CaseMaybe(h, i, j))
            }
            ExprArms::OfEither(x, a, y, b) => {
                let i = self.under(alloc, places, &x.text, a)?;
                let j = self.under(alloc, places, &y.text, b)?;
                self.add(Node::CaseEither(h, i, j))
            }
            ExprArms::OfList(a, x, y, b) => {
                let i = self.expr(alloc, places, a)?;
                let j = self.under_two(alloc, places, &x.text, &y.text, b)?;
                self.add(Node::CaseList(h, i, j))
            }
            ExprArms::OfPair(x, y, a) => {
                let i = self.under_two(alloc, places, &x.text, &y.text, a)?;
                self.add(Node::CasePair(h, i))
            }
        }
    }
}
