// No code: this crate holds the page of promises, what the contracts of the public calls add up to.
#![tactic(auto)]

pub fn nothing() {}
