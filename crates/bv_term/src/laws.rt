//! Laws of tables and values. Each is the contract of a function that does nothing: a caller cites what it ensures.
ghost use Rattle.bv_term.specs.Laws.{OneForEach, ValuesBegin, ValuesFit, ValuesStay, WidthsStay};

/// Terms keep their values as a table grows.
pub fn values_stay()
    ensures { ValuesStay }
{}

/// Terms keep their widths as a table grows.
pub fn widths_stay()
    ensures { WidthsStay }
{}

/// In a store, the value of each term is below two to the power of its width.
pub fn values_fit()
    ensures { ValuesFit }
{}

/// There is one width and, in each store, one value for each term.
pub fn one_for_each()
    ensures { OneForEach }
{}

/// The values of a table begin those of one that grew from it, so that `Terms::values_on` may go on behind them.
pub fn values_begin()
    ensures { ValuesBegin }
{}
