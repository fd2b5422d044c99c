ghost use Rattle.std.specs.Prelude.{◌≡◌, IfOk, map, option_map};
ghost use Rattle.c_typed.specs.Run as run;
ghost use Rattle.c_typed.specs.View as v;
ghost use Rattle.slot_code.specs.Machine as flat;
ghost use Rattle.slot_values.specs.Seen as values;
ghost use Rattle.slot_compiler.specs.Seen as seen;
ghost use Rattle.slot_machine.specs.Loaded.{entry_of};

use c_typed::Function;
use lv_base::Memory;
use slot_compiler::{Code, main_number};
use slot_machine::Entry;
use slot_values::{Link, link_of};

// A function without a number has no code that could be called.
fn number_of(number: usize) -> Result<u32, Memory>
    ensures { IfOk result (λ n. n ≡ number) }
{
    match u32::try_from(number) {
        Err(_) => Err(Memory),
        Ok(number) => Ok(number),
    }
}

fn entry_at(link: Option<Link>) -> Option<Entry>
    ensures { result ≡ entry_of (option_map values.link_of link) }
{
    match link {
        None => None,
        Some(link) => Some(Entry {
            place: link.entry,
            slot: link.slot,
        }),
    }
}

/// Where the code of `main` begins; none where no function is `main`, or its code doesn't stand there.
///
/// Fails with `Memory` where its number is none of a call.
pub(crate) fn main_entry(functions: &[Function], code: &Code) -> Result<Option<Entry>, Memory>
    ensures { IfOk result (λ e. e ≡ entry_of (flat.main_link (run.main_number (map v.function_of functions.now)) (seen.code_of code.now))) }
{
    match main_number(functions) {
        None => Ok(None),
        Some(number) => {
            let link = link_of(&code.links, number_of(number)?);
            Ok(entry_at(link))
        }
    }
}
