// No code: this crate holds definitions on lists and characters, and their laws.
#![tactic(auto)]

pub fn nothing() {}
