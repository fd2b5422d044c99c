//! What is told of the claims once, and what a claimer knows.
use std::collections::LinkedList;

/// What is fixed when the claims are made.
#[derive(Drop)]
pub struct Terms {
    /// The numbers below this one are given.
    pub total: u32,
    /// How many claimers there are.
    pub workers: u32,
}

/// What a claimer knows of its own steps. No value of it is made: it is for contracts alone.
pub struct Hand {
    /// The numbers below this one are given.
    pub total: u32,
    /// How many claimers it stands for: one until the claims are closed.
    pub parts: u32,
    /// The numbers that it was given.
    pub given: LinkedList<u32>,
    /// The numbers that it reported.
    pub reported: LinkedList<u32>,
    /// The least answer that it had to the question for the lowest report; 4294967295 where it had none.
    pub least: u32,
    /// How many of the claimers that it stands for are finished.
    pub finishes: u32,
}
