ghost use Rattle.std.specs.Prelude.{◌≡◌, IfOk};
ghost use Rattle.c_tree.specs.View as v;
ghost use Rattle.c_meaning.specs.Program as program;
ghost use Rattle.c_typed.specs.View as tv;
ghost use Rattle.c_types.specs.Elaborated as el;
ghost use Rattle.type_scopes.specs.Seen as seen;

use crate::functions::typed_functions;
use crate::names::names_of;
use crate::objects::typed_objects;
use c_tree::Unit;
use c_typed::{Function, Object};
use lv_base::{Memory, Model};
use source_bindings::bind_all;
use std::alloc::Global;
use type_scopes::Env;

/// A typed program: the data model, the objects by number, and the functions with a body by number.
#[derive(Drop)]
pub struct Program {
    pub model: Model,
    pub objects: Vec<Object>,
    pub functions: Vec<Function>,
}

/// The typed tree of a source whose names stand for this.
///
/// Fails with `Memory`, also where an array has 2^32 elements or more.
pub fn typed_program(
    alloc: Global,
    env: &Env<'_>,
    model: Model,
    unit: &Unit,
) -> Result<Program, Memory>
    ensures { IfOk result (λ p. tv.program_of p.model p.objects.items p.functions.items ≡ el.program_of (seen.env_of env.now) model (program.functions_of (seen.env_of env.now) (v.items_of unit.now.items.items))) }
{
    let bodies = names_of(alloc, &unit.items)?;
    let functions = typed_functions(alloc, env, model, &bodies, &unit.items)?;
    let objects = typed_objects(alloc, env, model)?;
    Ok(Program {
        model,
        objects,
        functions,
    })
}

/// The typed tree of a source (C11 6).
///
/// Fails with `Memory` where there is no more memory, where there are more than 2^32 objects or functions, or where an
/// array has 2^32 elements or more.
pub fn elaborated(alloc: Global, unit: &Unit, model: Model) -> Result<Program, Memory>
    ensures { IfOk result (λ p. tv.program_of p.model p.objects.items p.functions.items ≡ el.elaborated (v.items_of unit.now.items.items) model) }
{
    let env = bind_all(alloc, unit, model)?;
    let program = typed_program(alloc, &env, model, unit)?;
    Ok(program)
}
