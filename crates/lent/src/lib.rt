// What a call on a book is lent: the state with the three tables, and a report to write lines on.

#![tactic(auto)]

mod desk;
mod report;

pub use desk::{Book, Desk, Tables};
pub use report::Report;
