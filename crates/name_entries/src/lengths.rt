ghost use Rattle.std.specs.Prelude.{◌≡◌, length};
ghost use Rattle.c_tree.specs.View as v;
ghost use Rattle.c_meaning.specs.Constants as c;
ghost use Rattle.type_scopes.specs.Seen as seen;

use c_tree::{Expr, Form, Initial};
use lv_base::Model;
use tree_places::count_parts;
use type_constants::constant;
use type_scopes::Env;

fn listed(initial: &Initial) -> usize
    ensures { result ≡ c.listed (v.initial_of initial.now) }
{
    match initial {
        Initial::List(_, _, parts, _, _) => count_parts(parts),
        Initial::Nothing => 0,
        Initial::Value(_, _) => 0,
    }
}

fn length_from(value: Option<i128>) -> u64
    ensures { result ≡ c.length_from value }
{
    match value {
        None => 0,
        Some(value) => {
            if value < 1 {
                0
            } else if value > u64::MAX as i128 {
                u64::MAX
            } else {
                value as u64
            }
        }
    }
}

fn array_length(env: &Env<'_>, model: Model, e: &Option<Box<Expr>>, initial: &Initial) -> u64
    ensures { result ≡ c.array_length (seen.env_of env.now) model (v.option_expr e.now) (v.initial_of initial.now) }
{
    match e {
        None => listed(initial) as u64,
        Some(e) => length_from(constant(env, model, e)),
    }
}

/// The length of a declared array, which has as many elements as values where it has no length. A broken length is 0, and
/// one above 2^64 - 1 is that. None of anything that is no array.
pub fn object_length(env: &Env<'_>, model: Model, form: &Form, initial: &Initial) -> Option<u64>
    ensures { result ≡ c.object_length (seen.env_of env.now) model (v.form_of form.now) (v.initial_of initial.now) }
{
    match form {
        Form::Array(_, e, _) => Some(array_length(env, model, e, initial)),
        Form::Plain => None,
        Form::Function(_) => None,
    }
}
