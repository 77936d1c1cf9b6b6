// What a call that is taken answers.
use crate::Phase;
use rules::Opening;

#[derive(Clone, Copy)]
pub enum Outcome {
    // an entry, a cancel, a call or an end
    Accepted,
    // an amendment after which the order stands where it stood
    PriorityKept,
    // an amendment by which the order left and entered again
    PriorityLost,
    // an uncrossing, with its price and volume
    Uncrossed(Opening),
}

#[derive(Clone, Copy)]
pub struct Answer {
    pub outcome: Outcome,
    // how many lines of the report were written
    pub lines: usize,
    // the phase after the call
    pub phase: Phase,
}
