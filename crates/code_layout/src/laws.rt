//! What holds of layouts.
ghost use Rattle.code_layout.specs.Lies.{LayoutsLie};

/// In the layout of any code the elements of an object are an array of its kind's width, slots and indices have cells of 64 bits,
/// and draws of a width have one of that width.
pub fn layouts_lie()
    ensures { LayoutsLie }
{}
