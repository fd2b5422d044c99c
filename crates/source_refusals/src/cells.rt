ghost use Rattle.std.specs.Prelude.{◌≡◌, ◌≤◌, Some, map};
ghost use Rattle.c_meaning.specs.Bindings as b;
ghost use Rattle.type_scopes.specs.Seen as seen;
ghost use Rattle.source_refusals.specs.Cells as c;

use type_scopes::{Env, Object};

const MOST_ELEMENTS: u64 = 1024;

const MOST_CELLS: u64 = 65_536;

/// Where the limit on cells is passed: the offset of the name of the object with which it is, and the count that passed it,
/// which is the length of an array of more than 1,024 elements, and else that of the cells up to this object.
#[derive(Clone, Copy, Debug, PartialEq, Eq)]
pub struct Passed {
    pub at: u32,
    pub count: u64,
}

// The elements of an object, a scalar being one.
fn count_of(object: &Object<'_>) -> u64
    ensures { result ≡ b.size_of_object (Some (seen.object_of object.now)) }
{
    match object.length {
        None => 1,
        Some(length) => length,
    }
}

fn is_over(cells: u64, count: u64) -> bool
    requires { cells ≤ 65536 }
    ensures { result ≡ c.is_over cells count }
{
    count > MOST_ELEMENTS || cells + count > MOST_CELLS
}

fn count_after(cells: u64, count: u64) -> u64
    requires { cells ≤ 65536 }
    ensures { result ≡ c.count_after cells count }
{
    if count > MOST_ELEMENTS {
        count
    } else {
        cells + count
    }
}

/// The first object with which the cells of the objects pass the limit of 65,536, or that is an array of more than 1,024
/// elements. Each object counts once, a scalar as one cell.
#[tactic(auto, using(crate::proofs::Rows::passed_more))]
pub fn limit_passed(env: &Env<'_>) -> Option<Passed>
    ensures { result ≡ c.passed 0 (seen.env_of env.now).objects }
{
    let mut cells = 0u64;
    for object in &env.objects {
        let count = count_of(object);
        if is_over(cells, count) {
            return Some(Passed {
                at: object.at,
                count: count_after(cells, count),
            });
        }
        cells += count;
    }
    None
}
