// How the sweep of an order through the opposite queue ends.
#[derive(Clone, Copy)]
pub enum Ending {
    // nothing is left of the order
    Filled,
    // nobody is left to meet
    Nobody,
    // the collar refuses the next price
    Collared,
}
