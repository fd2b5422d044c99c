ghost use Rattle.std.specs.Prelude.{◌≡◌, ◌++◌, ◌&&◌, [], IfOk, length, is_some, bytes_eq};
ghost use Rattle.std.specs.List.{list_any};
ghost use Rattle.c_typed.specs.Rules as r;
ghost use Rattle.first_broken.specs.Found.{summary};
ghost use Rattle.first_broken.specs.Seen as lines;
ghost use Rattle.jump_rules.specs.Names.{IsLast, AreBefore, names_of};
ghost use Rattle.jump_rules.specs.Seen as seen;

use crate::jumps::{Jump, enters};
use crate::names::{Named, before_of, last_of, name_all};
use first_broken::{Found, both, line, none};
use lv_base::{Memory, SourceFault};
use std::alloc::Global;

fn is_there(place: Option<usize>) -> bool
    ensures { result ≡ is_some place }
{
    place.is_some()
}

fn repeated(named: &Named<'_>) -> Found
    requires { AreBefore (names_of (seen.jumps named.now.labels.now)) (length named.now.labels.now) named.now.before.items }
    ensures { lines.found_of result ≡ summary (r.repeated_labels [] (seen.jumps named.now.labels.now)) }
{
    let mut all = none();
    for (i, label) in named.labels.iter().enumerate() {
        let test = is_there(before_of(named, i));
        all = both(all, line(test, SourceFault::Label, label.named_at));
    }
    all
}

fn lost(named: &Named<'_>, gotos: &[Jump]) -> Found
    requires { IsLast (names_of (seen.jumps named.now.labels.now)) (length named.now.labels.now) named.now.last }
    ensures { lines.found_of result ≡ summary (r.lost_gotos (seen.jumps named.now.labels.now) (seen.jumps gotos.now)) }
{
    let mut all = none();
    for goto in gotos {
        let test = is_there(last_of(named, goto.name.as_bytes()));
        all = both(all, line(!test, SourceFault::Label, goto.named_at));
    }
    all
}

// Whether one of the labels of the goto's name stands in a scope that the goto is not in; the last one is looked at first.
fn is_entering(named: &Named<'_>, goto: &Jump) -> bool
    requires last { IsLast (names_of (seen.jumps named.now.labels.now)) (length named.now.labels.now) named.now.last }
    requires before { AreBefore (names_of (seen.jumps named.now.labels.now)) (length named.now.labels.now) named.now.before.items }
    ensures { result ≡ list_any (λ (x : Jump). bytes_eq x.name goto.now.name && r.enters goto.now.scope.items x.scope.items) named.now.labels.now }
{
    let mut at = last_of(named, goto.name.as_bytes());
    while let Some(place) = at {
        if enters(&goto.scope, &named.labels[place].scope) {
            return true;
        }
        at = before_of(named, place);
    }
    false
}

fn entering(named: &Named<'_>, gotos: &[Jump]) -> Found
    requires last { IsLast (names_of (seen.jumps named.now.labels.now)) (length named.now.labels.now) named.now.last }
    requires before { AreBefore (names_of (seen.jumps named.now.labels.now)) (length named.now.labels.now) named.now.before.items }
    ensures { lines.found_of result ≡ summary (r.entering_gotos (seen.jumps named.now.labels.now) (seen.jumps gotos.now)) }
{
    let mut all = none();
    for goto in gotos {
        let test = is_entering(named, goto);
        all = both(all, line(test, SourceFault::JumpIntoScope, goto.at));
    }
    all
}

/// The first of the rules of labels and of jumps into scopes that the labels and gotos of a function break.
///
/// Fails with `Memory` where there is no more memory for a place for each label.
pub fn jumps_found(alloc: Global, labels: &[Jump], gotos: &[Jump]) -> Result<Found, Memory>
    ensures { IfOk result (λ x. lines.found_of x ≡ summary (r.repeated_labels [] (seen.jumps labels.now) ++ r.lost_gotos (seen.jumps labels.now) (seen.jumps gotos.now) ++ r.entering_gotos (seen.jumps labels.now) (seen.jumps gotos.now))) }
{
    let named = name_all(alloc, labels)?;
    Ok(both(
        both(repeated(&named), lost(&named, gotos)),
        entering(&named, gotos),
    ))
}
