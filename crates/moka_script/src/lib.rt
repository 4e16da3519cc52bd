//! Scripts of calls on a cache: how they are read, and what is printed of what comes of them.
#![tactic(auto)]

pub mod failure;
pub mod first_ticket;
pub mod key_range;
mod lex;
pub mod notices;
pub mod print;
pub mod rules;
pub mod script;
pub mod sources;
pub mod streams;
pub mod weigher;
pub mod word;
