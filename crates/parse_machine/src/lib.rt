//! The machine that reads the tokens of a source, one after another, and makes their tree: its states, what each token
//! does, and how high the tree is at least.
#![tactic(auto)]
