ghost use Rattle.std.specs.Prelude.{◌≡◌};
ghost use Rattle.c_tree.specs.View.{form_of, name_of};
ghost use Rattle.c_tree.specs.Tree as tr;
ghost use Rattle.c_tree.specs.Shape as sh;
ghost use Rattle.parse_machine.specs.Heights as hi;
ghost use Rattle.parse_machine.specs.Making as mk;
ghost use Rattle.parse_machine.specs.Declarations as de;
ghost use Rattle.parse_stack.specs.View as v;

use crate::lows::is_function;
use crate::parts::DeclaratorRow;
use crate::places::{Declared, Place};
use crate::rows::has_no_attributes;
use crate::words::{is_typedef, is_void, site_of_place};
use c_tree::{Form, Known, Name, Site};
use std::alloc::Global;

/// No declared names yet.
pub fn no_declarators(alloc: Global) -> DeclaratorRow
    ensures { v.declarator_row result ≡ mk.no_more }
{
    DeclaratorRow {
        declarators: Vec::new(alloc),
        height: 0,
    }
}

/// Whether nothing stands behind the name.
pub fn is_bare(d: &Declared) -> bool
    ensures { result ≡ de.is_bare (v.declared d.now) }
{
    match d.form.form {
        Form::Plain => has_no_attributes(&d.attributes),
        Form::Array(..) | Form::Function(_) => false,
    }
}

/// An object, which may be an array and have a value.
pub fn is_object(k: Known) -> bool
    ensures { result ≡ de.is_object k }
{
    let void = is_void(k.typing);
    let typedef = is_typedef(k.storage);
    !void && !typedef
}

/// Whether a declaration stands at file scope.
pub fn is_in_file(p: &Place) -> bool
    ensures { result ≡ hi.is_placed_in_file (v.place p.now) }
{
    match p {
        Place::File => true,
        Place::Block(_) | Place::For(..) => false,
    }
}

/// Whether `(` may follow the name.
pub fn may_be_function(d: &Declared) -> bool
    ensures { result ≡ de.may_be_function (v.declared d.now) }
{
    let bare = is_bare(d);
    let file = is_in_file(&d.around.place);
    let typedef = is_typedef(d.around.spoken.told.storage);
    bare && file && !typedef
}

/// Whether `[` may follow the name.
pub fn may_be_array(d: &Declared) -> bool
    ensures { result ≡ de.may_be_array (v.declared d.now) }
{
    let bare = is_bare(d);
    let object = is_object(d.around.spoken.told);
    bare && object
}

/// Whether an attribute may follow.
pub fn may_have_attribute(d: &Declared) -> bool
    ensures { result ≡ de.may_have_attribute (v.declared d.now) }
{
    let function = is_function(&d.form.form);
    let void = is_void(d.around.spoken.told.typing);
    function || !void
}

/// Whether nothing more need come behind a form.
pub fn may_end(site: Site, k: Known, f: &Form) -> bool
    ensures { result ≡ sh.may_declare site k (form_of f.now) tr.iNothing }
{
    match f {
        Form::Plain => !is_void(k.typing),
        Form::Array(_, None, _) => false,
        Form::Array(_, Some(_), _) => is_object(k),
        Form::Function(_) => matches!(site, Site::File) && !is_typedef(k.storage),
    }
}

/// Whether nothing more need come behind the name.
pub fn may_be_whole(d: &Declared) -> bool
    ensures { result ≡ de.may_be_whole (v.declared d.now) }
{
    let site = site_of_place(&d.around.place);
    may_end(site, d.around.spoken.told, &d.form.form)
}

/// Whether the block of this function is skipped.
pub fn is_skipped_name(name: &Name) -> bool
    ensures { result ≡ sh.is_skipped_name (name_of name.now) }
{
    name.text.as_bytes() == "reach_error".as_bytes()
}
