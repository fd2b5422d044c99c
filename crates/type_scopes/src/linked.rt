ghost use Rattle.std.specs.Prelude.{◌≡◌, length};
ghost use Rattle.std.specs.Option.{option_copied};
ghost use Rattle.type_scopes.specs.Chains as chain;
ghost use Rattle.type_scopes.specs.Seen as seen;
ghost use Rattle.type_scopes.specs.Walking as walk;

use crate::entries::{Entity, Entry, Scope, begin_of};
use crate::links::{Link, Span, link_to};

/// A declaration with its links: to those of its bucket, and to all before it. The spans of the first tell from which token to
/// which one the declarations are seen, and where their scopes begin; those of the second, where their names stand, and the
/// numbers of their objects. `first` is the place of the first declaration of its name in the file, but for tags, where it is
/// one itself.
#[derive(Drop)]
pub(crate) struct Row<'a> {
    pub(crate) entry: Entry<'a>,
    pub(crate) name: Link,
    pub(crate) order: Link,
    pub(crate) first: usize,
}

/// The last token of a scope, by its offset.
pub(crate) fn last_of(scope: Scope) -> u32
    ensures { result ≡ walk.last_of (seen.scope_of scope) }
{
    match scope {
        Scope::File => u32::MAX,
        Scope::Block(_, last) => last,
        Scope::Behind(_, last) => last,
    }
}

fn name_span(entry: &Entry<'_>) -> Span
    ensures { result ≡ chain.name_span entry.now }
{
    Span {
        from: entry.from,
        to: last_of(entry.scope) as u64,
        low: 0,
        high: begin_of(entry.scope),
    }
}

fn lowest(entity: &Entity) -> u32
    ensures { result ≡ chain.lowest entity.now }
{
    match entity {
        Entity::Object(number) => *number,
        Entity::Function(_, _) => u32::MAX,
        Entity::Constant(_) => u32::MAX,
        Entity::Typedef(_, _) => u32::MAX,
        Entity::Tag(_) => u32::MAX,
        Entity::Name(_, _) => u32::MAX,
    }
}

fn highest(entity: &Entity) -> u32
    ensures { result ≡ chain.highest entity.now }
{
    match entity {
        Entity::Object(number) => *number,
        Entity::Function(_, _) => 0,
        Entity::Constant(_) => 0,
        Entity::Typedef(_, _) => 0,
        Entity::Tag(_) => 0,
        Entity::Name(_, _) => 0,
    }
}

fn order_span(entry: &Entry<'_>) -> Span
    ensures { result ≡ chain.order_span entry.now }
{
    Span {
        from: entry.at as u64,
        to: entry.at as u64,
        low: lowest(&entry.entity) as u64,
        high: highest(&entry.entity) as u64,
    }
}

fn name_before(rows: &[Row<'_>], left: usize) -> Option<Link>
    ensures { result ≡ chain.link_before chain.by_name rows.now left }
{
    if left == 0 {
        return None;
    }
    match rows.get(left - 1) {
        None => None,
        Some(row) => Some(row.name),
    }
}

fn order_before(rows: &[Row<'_>], left: usize) -> Option<Link>
    ensures { result ≡ chain.link_before chain.by_order rows.now left }
{
    if left == 0 {
        return None;
    }
    match rows.get(left - 1) {
        None => None,
        Some(row) => Some(row.order),
    }
}

fn name_behind(rows: &[Row<'_>], near: Option<Link>) -> Option<Link>
    ensures { result ≡ chain.link_behind chain.by_name rows.now near }
{
    match near {
        None => None,
        Some(near) => name_before(rows, near.jump),
    }
}

fn order_behind(rows: &[Row<'_>], near: Option<Link>) -> Option<Link>
    ensures { result ≡ chain.link_behind chain.by_order rows.now near }
{
    match near {
        None => None,
        Some(near) => order_before(rows, near.jump),
    }
}

fn name_link(rows: &[Row<'_>], older: usize, span: Span) -> Link
    ensures { chain.LinksTo chain.by_name rows.now older span result }
{
    let near = name_before(rows, older);
    link_to(older, near, name_behind(rows, near), span)
}

fn order_link(rows: &[Row<'_>], older: usize, span: Span) -> Link
    ensures { chain.LinksTo chain.by_order rows.now older span result }
{
    let near = order_before(rows, older);
    link_to(older, near, order_behind(rows, near), span)
}

/// The row of a declaration behind these, where the last of its bucket is at `older`.
pub(crate) fn row_behind<'a>(
    rows: &[Row<'a>],
    older: usize,
    entry: Entry<'a>,
    first: usize,
) -> Row<'a>
    ensures entry { result.entry ≡ entry.entry }
    ensures name { chain.LinksTo chain.by_name rows.now older (chain.name_span entry.entry) result.name }
    ensures order { chain.LinksTo chain.by_order rows.now (length rows.now) (chain.order_span entry.entry) result.order }
    ensures first { result.first ≡ first }
{
    let name = name_link(rows, older, name_span(&entry));
    let order = order_link(rows, rows.len(), order_span(&entry));
    Row {
        entry,
        name,
        order,
        first,
    }
}
