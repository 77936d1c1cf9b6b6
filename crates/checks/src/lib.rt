// What refuses a call: the checks of what is brought and of how the book stands, each in its order.

#![tactic(auto)]

mod brought;
mod fits;
mod ground;
mod ranges;

pub use brought::{check_lawful, check_ticket};
pub use ground::{capacity_of, check_ground};
pub use ranges::{is_number, is_quantity};
