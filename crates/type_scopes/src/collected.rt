ghost use Rattle.std.specs.Prelude.{◌≡◌, ◌≤◌, ◌⊎◌, ◌++◌, ◌∷◌, [], ℕ, length, map, find, get_or, slice_get, true, Some, IfOk, OnOk, OnErr};
ghost use Rattle.std.specs.Option.{option_copied};
ghost use Rattle.c_meaning.specs.Bindings as b;
ghost use Rattle.c_meaning.specs.Program as program;
ghost use Rattle.type_scopes.specs.declared.entries.Entry as record_of;
ghost use Rattle.type_scopes.specs.Asked as asked;
ghost use Rattle.type_scopes.specs.Found as found;
ghost use Rattle.type_scopes.specs.Seen as seen;
ghost use Rattle.type_scopes.specs.Walking as walk;

use crate::entries::{Entity, Entry, Scope, What, begin_of, holds, is_same, is_tag};
use crate::linked::{Row, last_of, row_behind};
use crate::links::{BUCKETS, Span, bucket_of};
use c_tree::Initial;
use lv_base::Memory;
use std::alloc::{AllocError, Global};
use std::marker::Model;

/// Declarations in their order, each found by its name, by the offset of its name and by the number of its object.
///
/// `newest` has for each bucket one more than the place of its last declaration, and 0 where there is none; before the first
/// declaration it is empty. A look-up goes back from there, past all that its span excludes.
#[derive(Drop)]
pub struct Declarations<'a> {
    rows: Vec<Row<'a>>,
    newest: Vec<usize>,
}

impl<'a> Model for Declarations<'a> {
    ghost use Rattle.std.specs.Prelude.{List};
    ghost use Rattle.std.specs.Coded.{codes};
    ghost use Rattle.c_tree.specs.contracts.tree.Enumerator as n;
    ghost use Rattle.c_tree.specs.contracts.tree.Expr as e;
    ghost use Rattle.c_tree.specs.contracts.tree.Spec as w;
    ghost use Rattle.type_scopes.specs.declared.entries.Entry.{Entry};

    ghost Value = { List Entry };

    ghost coded = { Prim.hlevel (codes, n.the_row.coded, e.the_row.coded, w.the_row.coded) };

    ghost use Rattle.type_scopes.specs.Chains.{entries_of, IsKept};

    ghost view = { λ d. entries_of d.rows.items };

    ghost invariant = { λ d. IsKept d.rows.items d.newest.items };
}

// Whether this is a declaration of the name, in its name space, whose scope holds the token.
fn is_visible(tag: bool, name: &[u8], at: u32, entry: &Entry<'_>) -> bool
    ensures { result ≡ b.is_visible tag name.now at (seen.entry_of entry.now) }
{
    is_tag(&entry.what) == tag
        && entry.name == name
        && entry.from <= at as u64
        && holds(entry.scope, at)
}

// Of a declaration and one that was found behind it: the inner one, or the later one of one scope.
fn inner<'b, 'a>(entry: &'b Entry<'a>, later: Option<&'b Entry<'a>>) -> Option<&'b Entry<'a>>
    ensures { found.some_entry (option_copied result) ≡ walk.joined (Some (seen.entry_of entry.now)) (found.some_entry (option_copied later.entry)) }
{
    match later {
        None => Some(entry),
        Some(later) => {
            if begin_of(entry.scope) <= begin_of(later.scope) {
                Some(later)
            } else {
                Some(entry)
            }
        }
    }
}

fn with_entry<'b, 'a>(
    tag: bool,
    name: &[u8],
    at: u32,
    entry: &'b Entry<'a>,
    later: Option<&'b Entry<'a>>,
) -> Option<&'b Entry<'a>>
    ensures { found.some_entry (option_copied result) ≡ walk.joined (walk.seen_one tag name.now at (seen.entry_of entry.now)) (found.some_entry (option_copied later.entry)) }
{
    if is_visible(tag, name, at, entry) {
        inner(entry, later)
    } else {
        later
    }
}

fn no_deeper(depth: u64, best: Option<&Entry<'_>>) -> bool
    ensures { result ≡ asked.no_deeper depth (found.some_entry (option_copied best.entry)) }
{
    match best {
        None => false,
        Some(best) => depth <= begin_of(best.scope),
    }
}

// Whether none of those in the span is the declaration of the token, where this one may be it.
fn is_hidden(span: Span, at: u32, best: Option<&Entry<'_>>) -> bool
    ensures { result ≡ asked.is_hidden span at (found.some_entry (option_copied best.entry)) }
{
    (at as u64) < span.from || (span.to < at as u64 || no_deeper(span.high, best))
}

// Whether none of those in the span is in the scope: each ends or begins before it does.
fn is_apart(span: Span, scope: Scope) -> bool
    ensures { result ≡ asked.is_apart span (seen.scope_of scope) }
{
    span.to < last_of(scope) as u64 || span.high < begin_of(scope)
}

fn is_elsewhere(span: Span, at: u32) -> bool
    ensures { result ≡ asked.is_elsewhere span at }
{
    (at as u64) < span.from || span.to < at as u64
}

fn has_no_number(span: Span, number: usize) -> bool
    ensures { result ≡ asked.has_no_number span number }
{
    (number as u64) < span.low || span.high < number as u64
}

fn is_placed(at: u32, entry: &Entry<'_>) -> bool
    ensures { result ≡ walk.is_placed at (seen.entry_of entry.now) }
{
    entry.at == at && !is_tag(&entry.what)
}

fn is_in_file(name: &[u8], entry: &Entry<'_>) -> bool
    ensures { result ≡ walk.is_in_file name.now (seen.entry_of entry.now) }
{
    entry.scope == Scope::File && (!is_tag(&entry.what) && entry.name == name)
}

fn is_twin(entry: &Entry<'_>, earlier: &Entry<'_>) -> bool
    ensures { result ≡ walk.is_twin (seen.declared_of entry.now) (seen.entry_of earlier.now) }
{
    is_tag(&entry.what) == is_tag(&earlier.what)
        && (is_same(entry.scope, earlier.scope) && entry.name == earlier.name)
}

fn is_number(number: usize, entity: &Entity) -> bool
    ensures { result ≡ program.is_number number (seen.entity_of entity.now) }
{
    match entity {
        Entity::Object(given) => *given as usize == number,
        Entity::Function(_, _) => false,
        Entity::Constant(_) => false,
        Entity::Typedef(_, _) => false,
        Entity::Tag(_) => false,
        Entity::Name(_, _) => false,
    }
}

// The initial value in a declaration, where it has one.
fn initial_in<'a>(entry: &Entry<'a>) -> Option<&'a Initial>
    ensures { found.some_initial (option_copied result) ≡ program.initial_in (seen.what_of entry.now.what) }
{
    match entry.what {
        What::Object(_, _, initial) => Some(initial),
        What::Parameter(_) => None,
        What::Function(_, _, _) => None,
        What::Typedef(_) => None,
        What::Constant(_) => None,
        What::Tag(_) => None,
        What::Name(_) => None,
    }
}

fn own_initial<'a>(number: usize, entry: &Entry<'a>) -> Option<&'a Initial>
    ensures { found.some_initial (option_copied result) ≡ walk.own_initial number (seen.entry_of entry.now) }
{
    if is_number(number, &entry.entity) {
        initial_in(entry)
    } else {
        None
    }
}

fn or_initial<'a>(initial: Option<&'a Initial>, later: Option<&'a Initial>) -> Option<&'a Initial>
    ensures { found.some_initial (option_copied result) ≡ program.or_initial (found.some_initial (option_copied initial.entry)) (found.some_initial (option_copied later.entry)) }
{
    match initial {
        None => later,
        Some(Initial::Nothing) => later,
        Some(Initial::Value(_, _)) => initial,
        Some(Initial::List(_, _, _, _, _)) => initial,
    }
}

fn or_found<'b, 'a>(
    is_it: bool,
    entry: &'b Entry<'a>,
    later: Option<&'b Entry<'a>>,
) -> Option<&'b Entry<'a>>
    ensures { found.some_entry (option_copied result) ≡ walk.or_found is_it (seen.entry_of entry.now) (found.some_entry (option_copied later.entry)) }
{
    if is_it { Some(entry) } else { later }
}

impl<'a> Declarations<'a> {
    /// No declarations.
    pub fn new(alloc: Global) -> Declarations<'a>
        ensures { result ≡ [] }
    {
        Declarations {
            rows: Vec::new(alloc),
            newest: Vec::new(alloc),
        }
    }

    /// How many there are.
    pub fn len(&self) -> usize
        ensures { result ≡ length self.now }
    {
        self.rows.len()
    }

    /// The declaration at a place.
    pub fn get(&self, place: usize) -> Option<&Entry<'a>>
        ensures { option_copied result ≡ slice_get self.now place }
    {
        match self.rows.get(place) {
            None => None,
            Some(row) => Some(&row.entry),
        }
    }

    /// A declaration more.
    ///
    /// Fails with `Memory`.
    pub fn push(&mut self, entry: Entry<'a>) -> Result<(), Memory>
        ensures { IfOk result (λ _. self.new ≡ self.old ++ entry.entry ∷ []) }
    {
        let first = self.first_with(&entry);
        open(&mut self.newest)?;
        let bucket = bucket_of(is_tag(&entry.what), entry.name);
        let row = row_behind(&self.rows, self.newest[bucket], entry, first);
        self.rows.push(row)?;
        self.newest[bucket] = self.rows.len();
        Ok(())
    }

    /// The declaration that a name of a token names: the last one before it in the innermost scope that has one
    /// (C11 6.2.1 p4). Tags have a name space of their own.
    pub fn visible(&self, tag: bool, name: &[u8], at: u32) -> Option<&Entry<'a>>
        ensures { found.some_entry (option_copied result) ≡ b.visible_in tag name.now at None (map seen.entry_of self.now) }
    {
        let mut best: Option<&Entry<'a>> = None;
        let mut left = newest_in(&self.newest, bucket_of(tag, name));
        'bucket: while left > 0 {
            let row = &self.rows[left - 1];
            if is_hidden(row.name.span, at, best) {
                left = row.name.jump;
                continue;
            }
            best = with_entry(tag, name, at, &row.entry, best);
            left = row.name.older;
        }
        best
    }

    /// The first declaration whose name is this token, but for tags.
    pub fn placed(&self, at: u32) -> Option<&Entry<'a>>
        ensures { found.some_entry (option_copied result) ≡ find (walk.is_placed at) (map seen.entry_of self.now) }
    {
        let mut first: Option<&Entry<'a>> = None;
        let mut left = self.rows.len();
        'rows: while left > 0 {
            let row = &self.rows[left - 1];
            if is_elsewhere(row.order.span, at) {
                left = row.order.jump;
                continue;
            }
            first = or_found(is_placed(at, &row.entry), &row.entry, first);
            left = row.order.older;
        }
        first
    }

    /// The first declaration of the name in the file, but for tags.
    pub fn first_in_file(&self, name: &[u8]) -> Option<&Entry<'a>>
        ensures { found.some_entry (option_copied result) ≡ find (walk.is_in_file name.now) (map seen.entry_of self.now) }
    {
        self.get(self.first_place(name))
    }

    // The place of the first declaration of the name in the file, but for tags; where there is none, how many there are. The
    // last one of the name knows it.
    fn first_place(&self, name: &[u8]) -> usize
        ensures few { result ≤ length self.now }
        ensures found { found.some_entry (slice_get self.now result) ≡ find (walk.is_in_file name.now) (map seen.entry_of self.now) }
    {
        let mut left = newest_in(&self.newest, bucket_of(false, name));
        'bucket: while left > 0 {
            let row = &self.rows[left - 1];
            if row.name.span.to < u32::MAX as u64 {
                left = row.name.jump;
                continue;
            }
            if is_in_file(name, &row.entry) {
                return row.first;
            }
            left = row.name.older;
        }
        self.rows.len()
    }

    // The place of the first declaration in the file of the name of this one, where it is one itself, behind all others.
    fn first_with(&self, entry: &Entry<'a>) -> usize
        ensures few { result ≤ length self.now }
        ensures found { walk.is_in_file entry.now.name.now (seen.entry_of entry.now) ≡ true → found.some_entry (slice_get self.now result) ≡ find (walk.is_in_file entry.now.name.now) (map seen.entry_of self.now) }
    {
        if is_in_file(entry.name, entry) {
            self.first_place(entry.name)
        } else {
            0
        }
    }

    /// Of the declaration at a place: one more than the place of the last one before it that has its name, name space and scope,
    /// and 0 where there is none.
    pub fn twin_before(&self, place: usize) -> usize
        ensures { (e : record_of.Entry) → slice_get self.now place ≡ Some e → result ≡ walk.last_where (walk.is_twin (seen.declared_of e)) (map seen.entry_of self.now) place }
    {
        if place >= self.rows.len() {
            return 0;
        }
        let this = &self.rows[place];
        let mut left = this.name.older;
        'bucket: while left > 0 {
            let row = &self.rows[left - 1];
            if is_apart(row.name.span, this.entry.scope) {
                left = row.name.jump;
                continue;
            }
            if is_twin(&this.entry, &row.entry) {
                return left;
            }
            left = row.name.older;
        }
        0
    }

    /// The one initial value among the declarations of the object with this number.
    pub fn initial_of(&self, number: usize) -> Option<&'a Initial>
        ensures { found.some_initial (option_copied result) ≡ program.initial_of number (map seen.entry_of self.now) }
    {
        let mut found: Option<&'a Initial> = None;
        let mut left = self.rows.len();
        'rows: while left > 0 {
            let row = &self.rows[left - 1];
            if has_no_number(row.order.span, number) {
                left = row.order.jump;
                continue;
            }
            found = or_initial(own_initial(number, &row.entry), found);
            left = row.order.older;
        }
        found
    }
}

/// Takes the table, where it was not taken yet.
fn open(newest: &mut Vec<usize>) -> Result<(), AllocError>
    requires { (newest.old.items ≡ []) ⊎ (length newest.old.items ≡ 65521) }
    ensures taken { OnOk result (length newest.new.items ≡ 65521) }
    ensures same { OnOk result ((b : ℕ) → get_or newest.new.items b 0 ≡ get_or newest.old.items b 0) }
    ensures unchanged { OnErr result (newest.new.items ≡ newest.old.items) }
{
    if newest.is_empty() {
        newest.resize(BUCKETS, 0)?;
    }
    Ok(())
}

/// What the table has for the bucket; where it was not taken yet, no declaration.
fn newest_in(newest: &[usize], bucket: usize) -> usize
    ensures { result ≡ get_or newest.now bucket 0 }
{
    match newest.get(bucket) {
        Some(left) => *left,
        None => 0,
    }
}
