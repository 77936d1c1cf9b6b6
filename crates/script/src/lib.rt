// Reads one line of a plain text call book into a statement.

#![tactic(auto)]

mod collars;
mod cursor;
mod grids;
mod numbers;
mod orders;
mod read;
mod statement;
mod words;

pub use read::read_statement;
pub use statement::{CollarWords, OrderPrice, PlainCollar, ScriptFault, Statement};
