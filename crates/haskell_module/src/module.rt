//! The whole module.
ghost use Rattle.std.specs.Prelude.{◌≡◌, ◌++◌, IfOk, OnOk, codes, map, string_bytes};
ghost use Rattle.std.specs.List.{flat_map};
ghost use Rattle.rules_expansion.specs.trees.Trees.{ex_of, wr_of};
ghost use Rattle.rules_expansion.specs.trees.Programs.{bl_of, par_of, bd_of, fn_of, script_of};
ghost use Rattle.haskell_module.specs.Types.{type_text};
ghost use Rattle.haskell_module.specs.Expressions.{ex_text};
ghost use Rattle.haskell_module.specs.Actions.{bl_text};
ghost use Rattle.haskell_module.specs.Modules.{parameter_type, parameter_head, parameter_end, signature, equation, pure_text, action_text, body_text, def_text, head, module_text};

use crate::actions::write_block;
use crate::exprs::write_expr;
use crate::names::write_name;
use crate::pieces::{put, write_lambda};
use crate::types::write_type;
use hs_base::tree::{Block, Body, Def, Expr, Name, Param, Script, Written};
use hs_base::{NoMemory, Txt};
use std::alloc::{AllocError, Global};

// ---- parameters

fn write_parameter_type(text: &mut String, parameter: &Param) -> Result<(), AllocError>
    ensures { OnOk result (string_bytes text.new ≡ string_bytes text.old ++ parameter_type (par_of parameter.now)) }
{
    write_type(text, &parameter.ty.ty)?;
    put(text, " -> ")
}

fn write_parameter_types(text: &mut String, parameters: &[Param]) -> Result<(), AllocError>
    ensures { OnOk result (string_bytes text.new ≡ string_bytes text.old ++ flat_map parameter_type (map par_of parameters.now)) }
{
    'each: for parameter in parameters {
        write_parameter_type(text, parameter)?;
    }
    Ok(())
}

fn write_parameter_head(text: &mut String, parameter: &Param) -> Result<(), AllocError>
    ensures { OnOk result (string_bytes text.new ≡ string_bytes text.old ++ parameter_head (par_of parameter.now)) }
{
    put(text, "(strict (")?;
    write_lambda(text, &parameter.name.text)
}

fn write_parameter_heads(text: &mut String, parameters: &[Param]) -> Result<(), AllocError>
    ensures { OnOk result (string_bytes text.new ≡ string_bytes text.old ++ flat_map parameter_head (map par_of parameters.now)) }
{
    'each: for parameter in parameters {
        write_parameter_head(text, parameter)?;
    }
    Ok(())
}

fn write_parameter_ends(text: &mut String, parameters: &[Param]) -> Result<(), AllocError>
    ensures { OnOk result (string_bytes text.new ≡ string_bytes text.old ++ flat_map parameter_end (map par_of parameters.now)) }
{
    'each: for _parameter in parameters {
        put(text, "))")?;
    }
    Ok(())
}

// ---- definitions

#[tactic(auto, unfolding(crate::specs::Modules::signature))]
fn write_signature(
    text: &mut String,
    name: &Name,
    before: &str,
    parameters: &[Param],
    io: &str,
    ty: &Written,
) -> Result<(), AllocError>
    ensures { OnOk result (string_bytes text.new ≡ string_bytes text.old ++ signature name.now.text before.now (flat_map parameter_type (map par_of parameters.now)) (io.now ++ type_text (wr_of ty.now).ty)) }
{
    write_name(text, &name.text)?;
    put(text, before)?;
    write_parameter_types(text, parameters)?;
    put(text, io)?;
    write_type(text, &ty.ty)?;
    put(text, ";\n")
}

#[tactic(auto, unfolding(crate::specs::Modules::equation))]
fn write_pure_equation(
    text: &mut String,
    name: &Name,
    parameters: &[Param],
    e: &Expr,
) -> Result<(), AllocError>
    ensures { OnOk result (string_bytes text.new ≡ string_bytes text.old ++ equation name.now.text (codes " = ") (flat_map parameter_head (map par_of parameters.now)) (ex_text (ex_of e.now)) (flat_map parameter_end (map par_of parameters.now)) (codes ";\n")) }
{
    write_name(text, &name.text)?;
    put(text, " = ")?;
    write_parameter_heads(text, parameters)?;
    write_expr(text, e)?;
    write_parameter_ends(text, parameters)?;
    put(text, ";\n")
}

#[tactic(auto, unfolding(crate::specs::Modules::equation))]
fn write_action_equation(
    text: &mut String,
    name: &Name,
    parameters: &[Param],
    block: &Block,
) -> Result<(), AllocError>
    ensures { OnOk result (string_bytes text.new ≡ string_bytes text.old ++ equation name.now.text (codes " = (\\ en -> ") (flat_map parameter_head (map par_of parameters.now)) (bl_text (bl_of block.now)) (flat_map parameter_end (map par_of parameters.now)) (codes ");\n")) }
{
    write_name(text, &name.text)?;
    put(text, " = (\\ en -> ")?;
    write_parameter_heads(text, parameters)?;
    write_block(text, block)?;
    write_parameter_ends(text, parameters)?;
    put(text, ");\n")
}

fn write_pure(
    text: &mut String,
    name: &Name,
    parameters: &[Param],
    ty: &Written,
    e: &Expr,
) -> Result<(), AllocError>
    ensures { OnOk result (string_bytes text.new ≡ string_bytes text.old ++ pure_text name.now (map par_of parameters.now) (type_text (wr_of ty.now).ty) (ex_text (ex_of e.now))) }
{
    write_signature(text, name, " :: ", parameters, "", ty)?;
    write_pure_equation(text, name, parameters, e)
}

fn write_action(
    text: &mut String,
    name: &Name,
    parameters: &[Param],
    ty: &Written,
    block: &Block,
) -> Result<(), AllocError>
    ensures { OnOk result (string_bytes text.new ≡ string_bytes text.old ++ action_text name.now (map par_of parameters.now) (type_text (wr_of ty.now).ty) (bl_text (bl_of block.now))) }
{
    write_signature(text, name, " :: Env -> ", parameters, "IO ", ty)?;
    write_action_equation(text, name, parameters, block)
}

fn write_definition(text: &mut String, def: &Def) -> Result<(), AllocError>
    ensures { OnOk result (string_bytes text.new ≡ string_bytes text.old ++ def_text (fn_of def.now)) }
{
    match &def.body {
        Body::Pure(ty, e) => write_pure(text, &def.name, def.params.as_slice(), ty, e),
        Body::Action(ty, block) => write_action(text, &def.name, def.params.as_slice(), ty, block),
    }
}

fn write_definitions(text: &mut String, defs: &[Def]) -> Result<(), AllocError>
    ensures { OnOk result (string_bytes text.new ≡ string_bytes text.old ++ flat_map def_text (map fn_of defs.now)) }
{
    'each: for def in defs {
        write_definition(text, def)?;
    }
    Ok(())
}

// ---- the whole

#[tactic(auto, unfolding(crate::specs::Modules::head))]
fn write_head(text: &mut String) -> Result<(), AllocError>
    ensures { OnOk result (string_bytes text.new ≡ string_bytes text.old ++ head) }
{
    put(
        text,
        "{import Prelude ();\nimport Litmus;\nmain :: IO ();\nmain = run script;\nscript :: Env -> IO ();\nscript = v_main;\n",
    )
}

/// The Haskell module of a script. The only error is want of memory.
pub fn write_module(alloc: Global, script: &Script) -> Result<Txt, NoMemory>
    ensures { IfOk result (λ t. t ≡ module_text (script_of script.now)) }
{
    let mut text = String::new(alloc);
    write_head(&mut text)?;
    write_definitions(&mut text, script.defs.as_slice())?;
    put(&mut text, "}\n")?;
    Txt::from_string(text)
}
