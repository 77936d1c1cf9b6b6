// The uncrossing of a book at a given price, or without one, in place on lent tables.

#![tactic(auto)]

mod closing;
mod continuing;
mod lapsing;
mod pairing;
mod printing;
mod sifting;

pub use closing::{close_unprinted, print_and_close};
pub use continuing::{open_unprinted, print_and_open};
