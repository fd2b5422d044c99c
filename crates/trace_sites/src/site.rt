ghost use Rattle.std.specs.Prelude.{◌≡◌, OnOk};
ghost use Rattle.trace_sites.specs.Expressions.{with_site};

use lv_base::Memory;

/// What stands at a site.
#[derive(Clone, Copy, Debug, PartialEq, Eq)]
pub enum Part {
    /// A call that draws a value: its name.
    Draw,
    /// An expression that is decided, true or false: its bytes, in front of what stands behind it.
    Decision,
    /// An assignment without an operation: its `=`.
    Assignment,
    /// A case of a `switch`: its keyword.
    Case,
}

/// A part of a source that has an instruction of its own, from one offset up to another.
#[derive(Clone, Copy, Debug, PartialEq, Eq)]
pub struct Site {
    pub part: Part,
    pub from: u32,
    pub to: u32,
}

/// Another site behind those that were found.
///
/// Fails with `Memory`.
pub(crate) fn add(found: &mut Vec<Site>, part: Part, from: u32, to: u32) -> Result<(), Memory>
    ensures { OnOk result (found.new.items ≡ with_site found.old.items part from to) }
{
    found.push(Site { part, from, to })?;
    Ok(())
}
