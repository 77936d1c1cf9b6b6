// The market's types and the rules of the auction price. The rules are definitions in specs/; code in other crates is
// proved equal to them.

#![tactic(auto)]

mod examples;
mod opening;
mod order;

pub use examples::examples_stand;
pub use opening::{Opening, Score};
pub use order::{Order, Side, Validity};
