//! The function in whose body a token stands.

ghost use Rattle.std.specs.Prelude.{◌≡◌};
ghost use Rattle.c_tree.specs.View as v;
ghost use Rattle.witness_places.specs.Functions as f;

use c_tree::{Body, Function, Item, Unit};

fn in_body<'a>(function: &'a Function, at: u32, before: &'a [u8]) -> &'a [u8]
    ensures { result.now ≡ f.in_body before.now function.now.name.text (v.body_of function.now.body) at }
{
    match &function.body {
        Body::Block(open, _, close) => {
            if *open <= at && at <= *close {
                function.name.text.as_bytes()
            } else {
                before
            }
        }
        Body::Skipped(_, _, _) => before,
    }
}

fn in_item<'a>(item: &'a Item, at: u32, before: &'a [u8]) -> &'a [u8]
    ensures { result.now ≡ f.in_item before.now (v.item_of item.now) at }
{
    match item {
        Item::Function(function) => in_body(function, at, before),
        Item::Skipped(_, _, _, _) => before,
        Item::Declaration(_) => before,
        Item::Empty(_) => before,
    }
}

/// The name of the function in whose body the token of this offset stands; nothing where it stands in none.
#[tactic(auto, using(crate::proofs::Rows::around_more, std::proofs::lemmas::List::take_all))]
pub fn function_around(unit: &Unit, at: u32) -> &[u8]
    ensures { result.now ≡ f.function_around (v.items_of unit.now.items.items) at }
{
    let mut found: &[u8] = b"";
    for item in &unit.items {
        found = in_item(item, at, found);
    }
    found
}
