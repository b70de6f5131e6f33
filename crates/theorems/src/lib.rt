// No code: this crate holds the theorems on the definitions of crates/meaning.
#![tactic(auto)]

pub fn nothing() {}
