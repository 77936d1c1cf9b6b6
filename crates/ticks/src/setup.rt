// Why rows and an end price make no tick table. All of these are refusal 5; a row is told by its place from 0.
#[derive(Clone, Copy)]
pub enum TableFault {
    NoRows,
    TooManyRows,
    StartNotPrice(usize),
    RowZeroStep(usize),
    // the row does not start above the row before it
    StartNotRising(usize),
    EndNotPrice,
    EndBelowLastStart,
}
