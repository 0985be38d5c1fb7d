#![tactic(auto)]
// The figures of document 01, defined over a sheet's content: see specs/. The crate has no code of its own.
