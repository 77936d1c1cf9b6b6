// The calls on a book: each carries out the rules on a state, three tables and a report that it is lent.

#![tactic(auto)]

mod amending;
mod amendment;
mod answering;
mod calling;
mod cancelling;
mod crossing;
mod ending;
mod entering;
mod entry;
mod finding;
mod ground;
mod leaving;
mod making;
mod opening;

pub use amending::amend;
pub use calling::call;
pub use cancelling::cancel;
pub use crossing::uncross;
pub use ending::end;
pub use entering::enter;
pub use making::new_book;
