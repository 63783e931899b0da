//! The code of a script.
ghost use Rattle.rules_code.specs.CodeTrees.{StandsFor};

use crate::act::{Act, ActId};
use crate::node::{ExprId, Node};
use hs_base::NoMemory;
use hs_base::tree::Script;
use hs_items::Items;
use std::alloc::{AllocError, Global};
use std::snapshot::Snapshot;
use std::sync::Arc;

/// An action function. Its parameters are the first slots in its body.
#[derive(Clone, Copy, Debug, PartialEq, Eq)]
pub struct Fun {
    pub params: u32,
    pub body: ActId,
}

/// What a code is: the expanded definitions of an accepted script, with slots in place of names.
pub struct CodeBody {
    pub nodes: Items<Node>,
    pub acts: Items<Act>,
    /// The action functions in the order of the script.
    pub funs: Items<Fun>,
    /// The body of `main`.
    pub main: ActId,
    pub of: Snapshot<Script>,
    pub ghost stands: { ∥ StandsFor nodes acts funs main of.value ∥₁ },
}

// Written out, so that it is proved once, here, and not in each function above that lets one go.
impl Drop for CodeBody {
    fn drop(self) {
        let CodeBody {
            nodes: _,
            acts: _,
            funs: _,
            main: _,
            of: _,
        } = self;
    }
}

/// A handle on it, which can be sent to and shared between threads.
pub struct Code {
    pub body: Arc<CodeBody, Global>,
}

// Written out, so that it is proved once, here, and not in each function above that lets one go.
impl Drop for Code {
    fn drop(self) {
        let Code { body: _ } = self;
    }
}

impl Code {
    ghost use Rattle.std.specs.Prelude.{◌≡◌, ◌<◌, IfOk, length, slice_get, Some};
    ghost use Rattle.rules_code.specs.Codes.{body_of};

    pub fn new(alloc: Global, body: CodeBody) -> Result<Code, NoMemory>
        ensures { IfOk result (λ code. body_of code ≡ body) }
    {
        let body = Arc::new(alloc, body).map_err(AllocError::from)?;
        Ok(Code { body })
    }

    /// Answers an equal code.
    pub fn share(&self) -> Result<Code, NoMemory>
        ensures { IfOk result (λ code. body_of code ≡ body_of self.now) }
    {
        let body = Arc::try_clone(&self.body)?;
        Ok(Code { body })
    }

    /// The body of `main`.
    pub fn main(&self) -> ActId
        ensures { result ≡ (body_of self.now).main }
    {
        self.body.main
    }

    /// An action function, by its number.
    pub fn fun(&self, f: u32) -> Fun
        requires { f < length (body_of self.now).funs }
        ensures { slice_get (body_of self.now).funs f ≡ Some result }
    {
        self.body.funs.as_slice()[f as usize]
    }

    /// Lends an action's node.
    pub fn act(&self, a: ActId) -> &Act
        requires { a.0 < length (body_of self.now).acts }
        ensures { slice_get (body_of self.now).acts a.0 ≡ Some result.now }
    {
        &self.body.acts.as_slice()[a.0]
    }

    /// Lends an expression's node.
    pub fn expr(&self, e: ExprId) -> &Node
        requires { e.0 < length (body_of self.now).nodes }
        ensures { slice_get (body_of self.now).nodes e.0 ≡ Some result.now }
    {
        &self.body.nodes.as_slice()[e.0]
    }
}
