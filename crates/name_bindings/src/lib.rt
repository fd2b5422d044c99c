//! What the declarations of a source bind their names to, part by part: definitions that a program can follow, and that they
//! say what the meaning of C says.
#![tactic(auto)]

ghost use Rattle.name_bindings.specs.Laws.{PartByPart};

/// Adding the declarations of each part of a source to those before it binds what the list of all declarations does.
pub fn part_by_part()
    ensures { PartByPart }
{}
