// Why numbers make no even grid. All of these are refusal 5.
#[derive(Clone, Copy)]
pub enum EvenFault {
    FirstNotPrice,
    LastNotPrice,
    ZeroStep,
    LastBelowFirst,
}
