ghost use Rattle.first_broken.specs.Found.{Joined, Tried};

/// The summary of two lists of lines behind each other is that of their summaries.
pub fn joined()
    ensures { Joined }
{}

/// The summary of lines that are tried only where their parts break no rule of names, types, calls and constants is found
/// from the summaries of both.
pub fn tried()
    ensures { Tried }
{}
