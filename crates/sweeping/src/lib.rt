// Continuous trading, carried out in place on the tables that are lent: an order sweeps the opposite queue, what is left of it
// is settled, and stops are released. Each function is proved to do what the rules of `trading` say.

#![tactic(auto)]

mod choose;
mod joining;
mod meet;
mod orders;
mod stops;
mod tables;
mod trade;

pub use choose::meets_someone;
pub use joining::join_order;
pub use orders::sweep_order;
pub use stops::{first_reached, is_reached, release_stops};
