ghost use Rattle.std.specs.Prelude.{◌≡◌, slice_index_or, false};
ghost use Rattle.call_order.specs.Peel as peel;

/// Whether a function is marked. Numbers past the marks are not.
pub(crate) fn is_marked(marks: &[bool], function: u32) -> bool
    ensures { result ≡ slice_index_or marks.now function false }
{
    match marks.get(function as usize) {
        None => false,
        Some(mark) => *mark,
    }
}

/// Marks a function. A number past the marks changes nothing.
pub(crate) fn mark(taken: &mut [bool], function: usize)
    ensures { taken.new ≡ peel.marked taken.old function }
{
    if function < taken.len() {
        taken[function] = true;
    }
}
