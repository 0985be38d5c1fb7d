#![tactic(auto)]
// A sheet's bytes by its content, and which of rows 5 to 13 and 28 content meets: see specs/.
// The crate has no code of its own.
