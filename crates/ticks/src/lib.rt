// Tick tables, and one type for a grid that is chosen while a program runs.

#![tactic(auto)]

mod any;
mod row;
mod setup;
mod table;

pub use any::AnyGrid;
pub use row::TickRow;
pub use setup::TableFault;
pub use table::TickTable;
