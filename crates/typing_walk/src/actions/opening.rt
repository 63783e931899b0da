// The names that are bound for one block.

ghost use Rattle.std.specs.Prelude.{◌≡◌, ◌≤◌, ◌-◌, IfOk, drop, length};
ghost use Rattle.typing_table.specs.Meaning.{type_in};
ghost use Rattle.rules_expansion.specs.trees.Trees.{exn};
ghost use Rattle.rules_expansion.specs.trees.Programs.{act_arms_of};
ghost use Rattle.rules_typing.specs.Typing.{bound, masked};
ghost use Rattle.rules_typing.specs.TypingActions.{form_of_acts};
ghost use Rattle.typing_parts.specs.Views.{form_of, part_of};
ghost use Rattle.typing_parts.specs.Judged.{kept, names};
ghost use Rattle.typing_walk.specs.actions.Opened.{Opened};

use hs_base::NoMemory;
use hs_base::tree::{BlockArms, Name};
use typing_parts::Form;
use typing_parts::checker::Checker;
use typing_parts::parts::NamedPart;
use typing_table::base::Base;
use typing_table::table::TypeTable;
use typing_table::ty::TypeTerm;

/// Binds a name, or notes that the scope takes no more names.
pub fn open(
    checker: &mut Checker,
    types: &TypeTable,
    x: &Name,
    t: TypeTerm,
) -> Result<bool, NoMemory>
    ensures { IfOk result (λ b. Opened types.now.nodes b checker.old checker.new x.now (bound x.now (type_in types.now.nodes t))) }
{
    checker.check_room(types, x);
    if checker.is_full(types) {
        return Ok(false);
    }
    checker.bind(types, x, t)?;
    Ok(true)
}

/// Binds a name to an exception, or notes that the scope takes no more names.
#[tactic(auto, using(typing_table::proofs::Equations::type_rules))]
pub fn open_exception(checker: &mut Checker, types: &TypeTable, x: &Name) -> Result<bool, NoMemory>
    ensures { IfOk result (λ b. Opened types.now.nodes b checker.old checker.new x.now (bound x.now exn)) }
{
    open(checker, types, x, TypeTerm::Base(Base::Exn))
}

/// Binds a name to a part of a type, or notes that the scope takes no more names.
pub fn open_part(
    checker: &mut Checker,
    types: &TypeTable,
    x: NamedPart,
    t: &TypeTerm,
) -> Result<bool, NoMemory>
    ensures { IfOk result (λ b. Opened types.now.nodes b checker.old checker.new x.entry.name.now (bound x.entry.name.now (part_of x.entry.part (type_in types.now.nodes t.now)))) }
{
    checker.check_room(types, x.name);
    if checker.is_full(types) {
        return Ok(false);
    }
    checker.bind_part(types, x.name, x.part, t)?;
    Ok(true)
}

/// Binds a masking name, or notes that the scope takes no more names.
pub fn open_mask(checker: &mut Checker, types: &TypeTable, x: &Name) -> Result<bool, NoMemory>
    ensures { IfOk result (λ b. Opened types.now.nodes b checker.old checker.new x.now (masked x.now)) }
{
    checker.check_room(types, x);
    if checker.is_full(types) {
        return Ok(false);
    }
    checker.bind_mask(types, x)?;
    Ok(true)
}

/// How many names the scope has.
#[tactic(auto, using(typing_parts::proofs::Tables::table_rules))]
pub fn mark(checker: &Checker, _types: &TypeTable) -> usize
    ensures { result ≡ length (names _types.now.nodes checker.now) }
{
    checker.scope.len()
}

/// Takes the names off that came after the first `mark`.
pub fn back_to(checker: &mut Checker, _types: &TypeTable, mark: usize)
    requires { mark ≤ length (names _types.now.nodes checker.old) }
    ensures { (names _types.now.nodes checker.new ≡ drop (length (names _types.now.nodes checker.old) - mark) (names _types.now.nodes checker.old)) × (kept _types.now.nodes checker.new ≡ kept _types.now.nodes checker.old) }
{
    checker.scope.back_to(mark);
}

/// The form that arms ask of what stands before them.
#[tactic(auto, using(rules_expansion::proofs::trees_lemmas::EquationsOfActions::act_arms_rules))]
pub fn asked_form(arms: &BlockArms) -> Form
    ensures { form_of result ≡ form_of_acts (act_arms_of arms.now) }
{
    match arms {
        BlockArms::OfMaybe(_, _, _) => Form::Maybe,
        BlockArms::OfEither(_, _, _, _) => Form::Either,
        BlockArms::OfList(_, _, _, _) => Form::List,
        BlockArms::OfPair(_, _, _) => Form::Pair,
    }
}
