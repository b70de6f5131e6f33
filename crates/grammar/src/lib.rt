// No code: this crate holds the grammar of typed queries, which a reader must believe.
#![tactic(auto)]

pub fn nothing() {}
