//! What an action of async scopes stands for, as the table of expansions has it.
//!
//! To a contract an action is its mirror (`rules_expansion::trees`), and a row of the table the list of its steps (`rules_expansion`). Its
//! promise: `scope` answers the row of the form that the action is, answers none exactly where it is no such form, and what it
//! answers is a template, written out, which with the action's own parts in it is what the action comes to. Making nodes by a row is
//! left to `hs_core`.
#![tactic(auto)]

ghost use Rattle.std.specs.Prelude.{◌≡◌, None, Some, IfSome, MatchOption};
ghost use Rattle.std.specs.Option.{option_map};
ghost use Rattle.rules_expansion.specs.trees.Programs.{act_of};
ghost use Rattle.rules_expansion.specs.Templates.{steps};
ghost use Rattle.conc_lib.specs.Scopes.{Spells, unary_form, guard_form, scope_form};

use hs_base::Action;
use hs_base::tree::forms::{GuardAction, UnaryAction};
use rules_expansion::{Derived, Step, steps};

/// The row of the table of expansions for `withAsync`, `wait`, `cancel`, `race` and `concurrently`: the steps that make the
/// nodes of what the action stands for. There is none for any other action.
#[tactic(auto, using(crate::proofs::Standing::form_spells))]
pub fn scope(action: &Action) -> Option<&'static [Step]>
    ensures row { MatchOption result (scope_form (act_of action.now) ≡ None) (λ row. option_map steps (scope_form (act_of action.now)) ≡ Some row.now) }
    ensures meaning { IfSome result (λ row. Spells row.now (act_of action.now)) }
{
    let form = form_of(action)?;
    Some(steps(form))
}

/// The form of async scopes that an action is.
#[tactic(auto, using(rules_expansion::proofs::trees_lemmas::EquationsOfActions::act_rules))]
fn form_of(action: &Action) -> Option<Derived>
    ensures { result ≡ scope_form (act_of action.now) }
{
    match action {
        Action::Unary(word, _, _) => unary_form(*word),
        Action::Guard(word, _, _, _) => guard_form(*word),
        Action::WithAsync(_, _, _, _) => Some(Derived::WithAsync),
        _ => None,
    }
}

/// `wait` and `cancel`.
fn unary_form(word: UnaryAction) -> Option<Derived>
    ensures { result ≡ unary_form word }
{
    match word {
        UnaryAction::Wait => Some(Derived::Wait),
        UnaryAction::Cancel => Some(Derived::Cancel),
        _ => None,
    }
}

/// `race` and `concurrently`.
fn guard_form(word: GuardAction) -> Option<Derived>
    ensures { result ≡ guard_form word }
{
    match word {
        GuardAction::Race => Some(Derived::Race),
        GuardAction::Concurrently => Some(Derived::Concurrently),
        _ => None,
    }
}
