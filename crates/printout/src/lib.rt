#![tactic(auto)]
// What is printed, defined over a statement: see specs/. The crate has no code of its own.
