// No code: this crate holds the definitions that a reader must believe, and the marked examples.
#![tactic(auto)]

pub fn nothing() {}
