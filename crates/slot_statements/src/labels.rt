ghost use Rattle.std.specs.Prelude.{◌≡◌, ℕ, List, [], ◌∷◌, bytes_eq, IfOk};
ghost use Rattle.std.specs.HashMap as hash;
ghost use Rattle.slot_code.specs.Statements as c;
ghost use Rattle.slot_statements.specs.Finding as finding;
ghost use Rattle.slot_statements.specs.Marked as marked;

use crate::marks::{Mark, Name};
use lv_base::{Memory, Text};
use std::alloc::Global;
use std::collections::HashMap;
use std::marker::Model;

/// Labels, for look-ups by name. Contracts see the places that are jumped to in their order.
#[derive(Drop)]
pub struct Labels<'a> {
    marks: &'a [Mark<'a>],
    places: HashMap<&'a [u8], usize>,
}

impl<'a> Model for Labels<'a> {
    ghost use Rattle.std.specs.Prelude.{List};
    ghost use Rattle.slot_code.specs.Statements.{Mark};

    ghost Value = { List Mark };

    ghost use Rattle.slot_statements.specs.Marked.{marks_of, IsFound};

    ghost view = { λ l. marks_of l.marks.now };

    ghost invariant = { λ l. IsFound (marks_of l.marks.now) l.places };
}

// One more place, before those that are there: a label takes the name from those behind it.
fn add_place<'a>(mark: Mark<'a>, places: &mut HashMap<&'a [u8], usize>) -> Result<(), Memory>
    ensures { IfOk result (λ _. (name : List ℕ) → hash.get_by (λ k. bytes_eq name k.now) places.new ≡ finding.or_else (c.label_in name (marked.mark_of mark.entry ∷ [])) (hash.get_by (λ k. bytes_eq name k.now) places.old)) }
{
    match mark.name {
        Name::Label(name) => {
            places.insert(name.as_bytes(), mark.place)?;
            Ok(())
        }
        Name::Case(_) => Ok(()),
        Name::Default => Ok(()),
    }
}

// The place of the first label of each name. The last mark is added first, so that earlier ones take its name.
fn places_of<'a>(alloc: Global, marks: &'a [Mark<'a>]) -> Result<HashMap<&'a [u8], usize>, Memory>
    ensures { IfOk result (λ places. marked.IsFound (marked.marks_of marks.now) places) }
{
    let mut places = HashMap::new(alloc);
    let mut left = marks.len();
    while left > 0 {
        left -= 1;
        add_place(marks[left], &mut places)?;
    }
    Ok(places)
}

impl<'a> Labels<'a> {
    /// The labels among these places.
    ///
    /// Fails with `Memory` where there is no more memory for an entry of each label.
    pub fn new(alloc: Global, marks: &'a [Mark<'a>]) -> Result<Labels<'a>, Memory>
        ensures { IfOk result (λ labels. labels ≡ marked.marks_of marks.now) }
    {
        let places = places_of(alloc, marks)?;
        Ok(Labels { marks, places })
    }

    /// The place of the first label of this name. It takes no memory.
    pub fn find(&self, name: &Text) -> Option<usize>
        ensures { result ≡ c.label_in name.now self.now }
    {
        self.places.get(&name.as_bytes()).copied()
    }
}
