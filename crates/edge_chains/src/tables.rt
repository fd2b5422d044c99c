//! Truths and numbers by number, which answer for every number.
ghost use Rattle.std.specs.Prelude.{◌≡◌};
ghost use Rattle.edge_chains.specs.Links.{flag_at, link_at};

/// The truth of a number, false past the end.
pub(crate) fn flag(flags: &[bool], number: u32) -> bool
    ensures { result ≡ flag_at flags.now number }
{
    match flags.get(number as usize) {
        None => false,
        Some(flag) => *flag,
    }
}

/// The number of a number, none past the end.
pub(crate) fn link(links: &[Option<u32>], number: u32) -> Option<u32>
    ensures { result ≡ link_at links.now number }
{
    match links.get(number as usize) {
        None => None,
        Some(link) => *link,
    }
}
