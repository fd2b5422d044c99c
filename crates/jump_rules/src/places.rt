ghost use Rattle.std.specs.Prelude.{◌≡◌, take, option_map};
ghost use Rattle.c_typed.specs.View as v;
ghost use Rattle.c_typed.specs.Rules as r;
ghost use Rattle.first_broken.specs.Found.{summary};
ghost use Rattle.first_broken.specs.Seen as lines;

use crate::jumps::enters;
use c_typed::Value;
use first_broken::{Found, line, none};
use lv_base::{Kind, SourceFault};

// The first objects of a scope.
fn front(scope: &[u32], count: usize) -> &[u32]
    ensures { result.now ≡ take count scope.now }
{
    if count < scope.len() {
        &scope[..count]
    } else {
        scope
    }
}

/// A `case` or `default` in this scope, whose switch stands in the scope of its first `switch` objects, or in no switch.
pub(crate) fn case_line(scope: &[u32], switch: Option<usize>, at: u32) -> Found
    ensures { lines.found_of result ≡ summary (r.case_lines (option_map (λ n. take n scope.now) switch) scope.now at) }
{
    match switch {
        None => line(true, SourceFault::BadJump, at),
        Some(count) => {
            let test = enters(front(scope, count), scope);
            line(test, SourceFault::JumpIntoScope, at)
        }
    }
}

/// A `return` in a function with this result.
pub(crate) fn return_line(kind: Option<Kind>, value: &Option<Box<Value>>, at: u32) -> Found
    ensures { lines.found_of result ≡ summary (r.return_line kind (v.option_value value.now) at) }
{
    match kind {
        None => match value {
            None => none(),
            Some(_) => line(true, SourceFault::BadJump, at),
        },
        Some(_) => match value {
            None => line(true, SourceFault::BadJump, at),
            Some(_) => none(),
        },
    }
}
