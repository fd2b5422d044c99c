//! What the operations on slots say of integers.
ghost use Rattle.word_laws.specs.Laws.{ConversionsAgree, FailuresAgree, NegationsAgree, OperationsAgree, ZerosAgree};

/// A slot that is converted to a kind holds the converted integer.
pub fn conversions_agree()
    ensures { ConversionsAgree }
{}

/// The test whether a slot is 0 says whether the integer is.
pub fn zeros_agree()
    ensures { ZerosAgree }
{}

/// Where an operation meets no error, its term holds its result, for each operator, promoted kind and model.
pub fn operations_agree()
    ensures { OperationsAgree }
{}

/// The first test of an operation that is 1 is that of the error which the operation meets; where it meets none, no test is 1.
pub fn failures_agree()
    ensures { FailuresAgree }
{}

/// A minus holds the difference from 0, and overflows where that does.
pub fn negations_agree()
    ensures { NegationsAgree }
{}
