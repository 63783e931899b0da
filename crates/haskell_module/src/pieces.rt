//! Pieces of a module that hold no part of a tree but names, numbers and texts.
ghost use Rattle.std.specs.Prelude.{◌≡◌, ◌++◌, OnOk, codes, string_bytes};
ghost use Rattle.std.specs.Fmt.{signed_decimal};
ghost use Rattle.rules_expansion.specs.trees.Trees.{constant_of, compare_form, sum_form, cons_form, wr_of};
ghost use Rattle.haskell_module.specs.Names.{name_text, literal_text};
ghost use Rattle.haskell_module.specs.Types.{type_text};
ghost use Rattle.haskell_module.specs.Forms.{applied, typed, lambda, arm, point, binding};
ghost use Rattle.haskell_module.specs.Expressions.{lit_text, unary_word, operator, side_word, empty_text};
ghost use Rattle.haskell_module.specs.Actions.{bare_text, unary_act_word, binary_act_word};

use crate::names::{write_literal, write_name};
use crate::types::write_type;
use hs_base::tree::forms::{
    BareAction, BinaryAction, BinaryForm, EmptyForm, SideForm, UnaryAction, UnaryForm,
};
use hs_base::tree::{CompareOp, ConsOp, Constant, SumOp, Written};
use hs_base::{Pos, Txt};
use std::alloc::AllocError;

/// A piece as it stands.
pub(crate) fn put(text: &mut String, piece: &str) -> Result<(), AllocError>
    ensures { OnOk result (string_bytes text.new ≡ string_bytes text.old ++ piece.now) }
{
    text.push_str(piece)
}

// ---- names

/// The head of a function of a name.
#[tactic(auto, unfolding(crate::specs::Forms::lambda))]
pub(crate) fn write_lambda(text: &mut String, name: &Txt) -> Result<(), AllocError>
    ensures { OnOk result (string_bytes text.new ≡ string_bytes text.old ++ lambda name.now) }
{
    put(text, "\\ ")?;
    write_name(text, name)?;
    put(text, " -> ")
}

/// An arm that binds a name, up to its body.
#[tactic(auto, unfolding(crate::specs::Forms::arm))]
pub(crate) fn write_arm(text: &mut String, before: &str, name: &Txt) -> Result<(), AllocError>
    ensures { OnOk result (string_bytes text.new ≡ string_bytes text.old ++ arm before.now name.now) }
{
    put(text, before)?;
    write_name(text, name)?;
    put(text, " -> ")
}

/// A statement that binds a name, up to its action.
#[tactic(auto, unfolding(crate::specs::Forms::binding))]
pub(crate) fn write_binding(text: &mut String, name: &Txt) -> Result<(), AllocError>
    ensures { OnOk result (string_bytes text.new ≡ string_bytes text.old ++ binding name.now) }
{
    write_name(text, name)?;
    put(text, " <- ")
}

/// A point of a run, with the position of its action.
#[tactic(auto, unfolding(crate::specs::Forms::point))]
pub(crate) fn write_point(text: &mut String, word: &str, pos: Pos) -> Result<(), AllocError>
    ensures { OnOk result (string_bytes text.new ≡ string_bytes text.old ++ point word.now pos) }
{
    let Pos { line, col } = pos;
    write!(text, "{word} en {line} {col} ")
}

// ---- expressions without parts

#[tactic(auto, unfolding(crate::specs::Forms::typed))]
pub(crate) fn write_number(text: &mut String, number: i64) -> Result<(), AllocError>
    ensures { OnOk result (string_bytes text.new ≡ string_bytes text.old ++ typed (signed_decimal number) (codes "Int")) }
{
    write!(text, "({number} :: Int)")
}

#[tactic(auto, unfolding(crate::specs::Forms::applied))]
pub(crate) fn write_text(text: &mut String, content: &Txt) -> Result<(), AllocError>
    ensures { OnOk result (string_bytes text.new ≡ string_bytes text.old ++ applied (codes "text") (literal_text content.now)) }
{
    put(text, "(text ")?;
    write_literal(text, content)?;
    put(text, ")")
}

#[tactic(auto, unfolding(crate::specs::Forms::typed))]
fn write_nothing(text: &mut String, ty: &Written) -> Result<(), AllocError>
    ensures { OnOk result (string_bytes text.new ≡ string_bytes text.old ++ typed (codes "Nothing") (codes "Maybe " ++ type_text (wr_of ty.now).ty)) }
{
    put(text, "(Nothing :: Maybe ")?;
    write_type(text, &ty.ty)?;
    put(text, ")")
}

#[tactic(auto, unfolding(crate::specs::Forms::typed))]
fn write_empty_list(text: &mut String, ty: &Written) -> Result<(), AllocError>
    ensures { OnOk result (string_bytes text.new ≡ string_bytes text.old ++ typed (codes "[]") (codes "[" ++ type_text (wr_of ty.now).ty ++ codes "]")) }
{
    put(text, "([] :: [")?;
    write_type(text, &ty.ty)?;
    put(text, "])")
}

pub(crate) fn write_empty(
    text: &mut String,
    form: EmptyForm,
    ty: &Written,
) -> Result<(), AllocError>
    ensures { OnOk result (string_bytes text.new ≡ string_bytes text.old ++ empty_text form (type_text (wr_of ty.now).ty)) }
{
    match form {
        EmptyForm::Nothing => write_nothing(text, ty),
        EmptyForm::EmptyList => write_empty_list(text, ty),
    }
}

// ---- words

pub(crate) fn constant_word(constant: Constant) -> &'static str
    ensures { result.now ≡ lit_text (constant_of constant) }
{
    match constant {
        Constant::True => "True",
        Constant::False => "False",
        Constant::ThreadKilled => "threadKilled",
        Constant::UserInterrupt => "userInterrupt",
        Constant::DivideByZero => "divideByZero",
        Constant::Overflow => "overflow",
    }
}

pub(crate) fn unary_word(form: UnaryForm) -> &'static str
    ensures { result.now ≡ unary_word form }
{
    match form {
        UnaryForm::Just => "just",
        UnaryForm::ErrorCall => "errorCall",
        UnaryForm::Not => "not",
        UnaryForm::Fst => "fst",
        UnaryForm::Snd => "snd",
        UnaryForm::Show => "show",
        UnaryForm::Negate => "negate",
    }
}

pub(crate) fn operator(form: BinaryForm) -> &'static str
    ensures { result.now ≡ operator form }
{
    match form {
        BinaryForm::Pair => " `pair` ",
        BinaryForm::Div => " `div` ",
        BinaryForm::Mod => " `mod` ",
        BinaryForm::Equal => " == ",
        BinaryForm::Unequal => " /= ",
        BinaryForm::Less => " < ",
        BinaryForm::AtMost => " <= ",
        BinaryForm::Greater => " > ",
        BinaryForm::AtLeast => " >= ",
        BinaryForm::Or => " || ",
        BinaryForm::And => " && ",
        BinaryForm::Plus => " + ",
        BinaryForm::Minus => " - ",
        BinaryForm::Times => " * ",
        BinaryForm::Cons => " .: ",
        BinaryForm::Append => " ++ ",
    }
}

pub(crate) fn compare_operator(op: CompareOp) -> &'static str
    ensures { result.now ≡ operator (compare_form op) }
{
    match op {
        CompareOp::Equal => " == ",
        CompareOp::Unequal => " /= ",
        CompareOp::Less => " < ",
        CompareOp::AtMost => " <= ",
        CompareOp::Greater => " > ",
        CompareOp::AtLeast => " >= ",
    }
}

pub(crate) fn sum_operator(op: SumOp) -> &'static str
    ensures { result.now ≡ operator (sum_form op) }
{
    match op {
        SumOp::Plus => " + ",
        SumOp::Minus => " - ",
    }
}

pub(crate) fn list_operator(op: ConsOp) -> &'static str
    ensures { result.now ≡ operator (cons_form op) }
{
    match op {
        ConsOp::Cons => " .: ",
        ConsOp::Append => " ++ ",
    }
}

pub(crate) fn side_word(form: SideForm) -> &'static str
    ensures { result.now ≡ side_word form }
{
    match form {
        SideForm::Left => "left",
        SideForm::Right => "right",
    }
}

pub(crate) fn bare_text(form: BareAction) -> &'static str
    ensures { result.now ≡ bare_text form }
{
    match form {
        BareAction::MyThreadId => "(myThreadId en)",
        BareAction::ClockMicros => "(clockMicros en)",
        BareAction::GetMaskingState => "(getMaskingState)",
    }
}

pub(crate) fn unary_act_word(form: UnaryAction) -> &'static str
    ensures { result.now ≡ unary_act_word form }
{
    match form {
        UnaryAction::Return => "return",
        UnaryAction::PutStr => "putStr en",
        UnaryAction::PutStrLn => "putStrLn en",
        UnaryAction::HPutStrLn => "hPutStrLn en",
        UnaryAction::NewMVar => "newMVar",
        UnaryAction::TakeMVar => "takeMVar",
        UnaryAction::ReadMVar => "readMVar",
        UnaryAction::TryTakeMVar => "tryTakeMVar",
        UnaryAction::KillThread => "killThread",
        UnaryAction::ThreadDelay => "threadDelay en",
        UnaryAction::Wait => "wait",
        UnaryAction::Cancel => "cancel",
    }
}

pub(crate) fn binary_act_word(form: BinaryAction) -> &'static str
    ensures { result.now ≡ binary_act_word form }
{
    match form {
        BinaryAction::PutMVar => "putMVar",
        BinaryAction::TryPutMVar => "tryPutMVar",
        BinaryAction::ThrowTo => "throwTo",
    }
}
