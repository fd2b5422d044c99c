ghost use Rattle.std.specs.Prelude.{◌≡◌};
ghost use Rattle.c_tree.specs.Words as wo;
ghost use Rattle.parse_machine.specs.Heights as hi;
ghost use Rattle.parse_stack.specs.View as v;

use crate::places::Place;
use c_tree::{Known, Signedness, Site, Size, Storage, StorageWord, TypeWord, Typing};

/// Where a declaration stands, as its words see it.
pub fn site_of_place(p: &Place) -> Site
    ensures { result ≡ hi.site_of_place (v.place p.now) }
{
    match p {
        Place::File => Site::File,
        Place::Block(_) | Place::For(..) => Site::Block,
    }
}

fn with_signed(k: Typing) -> Option<Typing>
    ensures { result ≡ wo.with_signed k }
{
    match k {
        Typing::Untyped => Some(Typing::Basic(Signedness::Signed, Size::Unstated, false)),
        Typing::Basic(Signedness::Unstated, z, i) => {
            Some(Typing::Basic(Signedness::Signed, z, i))
        }
        _ => None,
    }
}

fn with_unsigned(k: Typing) -> Option<Typing>
    ensures { result ≡ wo.with_unsigned k }
{
    match k {
        Typing::Untyped => Some(Typing::Basic(Signedness::Unsigned, Size::Unstated, false)),
        Typing::Basic(Signedness::Unstated, z, i) => {
            Some(Typing::Basic(Signedness::Unsigned, z, i))
        }
        _ => None,
    }
}

fn with_int(k: Typing) -> Option<Typing>
    ensures { result ≡ wo.with_int k }
{
    match k {
        Typing::Untyped => Some(Typing::Basic(Signedness::Unstated, Size::Unstated, true)),
        Typing::Basic(s, Size::Unstated, false) => Some(Typing::Basic(s, Size::Unstated, true)),
        Typing::Basic(s, Size::Short, false) => Some(Typing::Basic(s, Size::Short, true)),
        Typing::Basic(s, Size::Long, false) => Some(Typing::Basic(s, Size::Long, true)),
        Typing::Basic(s, Size::LongLong, false) => Some(Typing::Basic(s, Size::LongLong, true)),
        _ => None,
    }
}

fn with_char(k: Typing) -> Option<Typing>
    ensures { result ≡ wo.with_char k }
{
    match k {
        Typing::Untyped => Some(Typing::Basic(Signedness::Unstated, Size::Char, false)),
        Typing::Basic(s, Size::Unstated, false) => Some(Typing::Basic(s, Size::Char, false)),
        _ => None,
    }
}

fn with_short(k: Typing) -> Option<Typing>
    ensures { result ≡ wo.with_short k }
{
    match k {
        Typing::Untyped => Some(Typing::Basic(Signedness::Unstated, Size::Short, false)),
        Typing::Basic(s, Size::Unstated, i) => Some(Typing::Basic(s, Size::Short, i)),
        _ => None,
    }
}

fn with_long(k: Typing) -> Option<Typing>
    ensures { result ≡ wo.with_long k }
{
    match k {
        Typing::Untyped => Some(Typing::Basic(Signedness::Unstated, Size::Long, false)),
        Typing::Basic(s, Size::Unstated, i) => Some(Typing::Basic(s, Size::Long, i)),
        Typing::Basic(s, Size::Long, i) => Some(Typing::Basic(s, Size::LongLong, i)),
        _ => None,
    }
}

fn alone(whole: Typing, k: Typing) -> Option<Typing>
    ensures { result ≡ wo.alone whole k }
{
    match k {
        Typing::Untyped => Some(whole),
        _ => None,
    }
}

fn type_with(w: TypeWord, k: Typing) -> Option<Typing>
    ensures { result ≡ wo.type_with w k }
{
    match w {
        TypeWord::Void => alone(Typing::Void, k),
        TypeWord::Bool => alone(Typing::Bool, k),
        TypeWord::Char => with_char(k),
        TypeWord::Short => with_short(k),
        TypeWord::Int => with_int(k),
        TypeWord::Long => with_long(k),
        TypeWord::Signed | TypeWord::SignedAlternate => with_signed(k),
        TypeWord::Unsigned => with_unsigned(k),
    }
}

fn only(class: Storage, s: Storage) -> Option<Storage>
    ensures { result ≡ wo.only class s }
{
    match s {
        Storage::Unstated => Some(class),
        _ => None,
    }
}

fn file_storage(w: StorageWord, s: Storage) -> Option<Storage>
    ensures { result ≡ wo.file_storage w s }
{
    match w {
        StorageWord::Extern | StorageWord::Static => only(Storage::Other, s),
        StorageWord::Typedef => only(Storage::Typedef, s),
        StorageWord::Inline
        | StorageWord::InlineShort
        | StorageWord::InlineLong
        | StorageWord::Noreturn => Some(s),
        StorageWord::Auto | StorageWord::Register => None,
    }
}

fn block_storage(w: StorageWord, s: Storage) -> Option<Storage>
    ensures { result ≡ wo.block_storage w s }
{
    match w {
        StorageWord::Typedef => only(Storage::Typedef, s),
        StorageWord::Auto | StorageWord::Register => only(Storage::Other, s),
        _ => None,
    }
}

fn storage_with(site: Site, w: StorageWord, s: Storage) -> Option<Storage>
    ensures { result ≡ wo.storage_with site w s }
{
    match site {
        Site::File => file_storage(w, s),
        Site::Block => block_storage(w, s),
        Site::Cast | Site::Bare => None,
    }
}

/// Whether this is a typedef.
pub fn is_typedef(s: Storage) -> bool
    ensures { result ≡ wo.is_typedef s }
{
    matches!(s, Storage::Typedef)
}

/// Whether the type is `void`.
pub fn is_void(k: Typing) -> bool
    ensures { result ≡ wo.is_void k }
{
    matches!(k, Typing::Void)
}

/// Whether a type stands among the words.
pub fn is_typed(k: Typing) -> bool
    ensures { result ≡ wo.is_typed k }
{
    !matches!(k, Typing::Untyped)
}

fn may_be_void(site: Site) -> bool
    ensures { result ≡ wo.may_be_void site }
{
    matches!(site, Site::File | Site::Cast)
}

fn lawful(site: Site, k: Known) -> Option<Known>
    ensures { result ≡ wo.lawful site k }
{
    let void = is_void(k.typing);
    let typedef = is_typedef(k.storage);
    let allowed = may_be_void(site);
    if void && (typedef || !allowed) {
        None
    } else {
        Some(k)
    }
}

/// What the words say with a type word more.
pub fn with_type(site: Site, w: TypeWord, k: Known) -> Option<Known>
    ensures { result ≡ wo.with_type site w k }
{
    match type_with(w, k.typing) {
        None => None,
        Some(typing) => lawful(
            site,
            Known {
                typing,
                storage: k.storage,
            },
        ),
    }
}

/// What the words say with a storage word more.
pub fn with_storage(site: Site, w: StorageWord, k: Known) -> Option<Known>
    ensures { result ≡ wo.with_storage site w k }
{
    match storage_with(site, w, k.storage) {
        None => None,
        Some(storage) => lawful(
            site,
            Known {
                typing: k.typing,
                storage,
            },
        ),
    }
}

/// What the words say with a typedef name or an enumeration more.
pub fn with_named(k: Known) -> Option<Known>
    ensures { result ≡ wo.with_named k }
{
    match alone(Typing::Named, k.typing) {
        None => None,
        Some(typing) => Some(Known {
            typing,
            storage: k.storage,
        }),
    }
}
