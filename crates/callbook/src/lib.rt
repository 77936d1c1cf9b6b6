// A call book that is written line by line, and opened.

#![tactic(auto)]

mod book;
mod collars;
mod fault;
mod lines;
mod order_check;
mod orders;
mod text;

pub use book::CallBook;
pub use fault::BookFault;
pub use order_check::OrderFault;
pub use text::{LineFault, run_line};
