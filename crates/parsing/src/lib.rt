// No code: this crate holds the reader of typed queries as a definition, and the words that it shares with code.
#![tactic(auto)]

use codes::{Axis, Test};

// How a part of a text ends: with the text, with a list's parenthesis, with a call's parenthesis, with `return`, with
// `else`.
#[derive(Clone, Copy, PartialEq, Eq)]
pub enum Ends {
    WithText,
    WithList,
    WithCall,
    WithReturn,
    WithElse,
}

// The word that comes after an operand, or the end of the text.
#[derive(Clone, Copy)]
pub enum Next {
    Slash,
    Star,
    Idiv,
    Plus,
    Minus,
    Eq,
    Lt,
    Comma,
    Close,
    Return,
    Else,
    End,
}

// A step.
#[derive(Clone, Copy)]
pub struct Step {
    pub axis: Axis,
    pub test: Test,
}

pub fn nothing() {}
