// Queues of ranked records, each in the front part of a table that is lent: joining, leaving, looking for a number, adding up.

#![tactic(auto)]

mod queue;
mod ranked;
mod records;
mod tables;

pub use queue::Queue;
pub use ranked::{Numbered, Ranked};
pub use tables::{find_number, join_table, leave_table};
