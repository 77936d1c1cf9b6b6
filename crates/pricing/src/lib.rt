// The price of a call auction: the one lawful price that beats every other, on any price grid and under any collar.

#![tactic(auto)]

mod auction;
mod best;
mod opening;
mod totals;

pub use auction::{MAX_ORDERS, TooManyOrders};
pub use opening::opening_price;
