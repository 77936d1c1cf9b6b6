// One row of a tick table: the price it starts at, and the step from there on.
#[derive(Clone, Copy)]
pub struct TickRow {
    pub start: u32,
    pub step: u32,
}
