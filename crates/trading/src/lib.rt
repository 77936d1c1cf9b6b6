// The trading of one share: the types of its book and the rules of every call. The rules are definitions in specs/; code in other
// crates is proved to carry them out.

#![tactic(auto)]

mod answer;
mod examples;
mod fault;
mod report;
mod request;
mod state;
mod stop;
mod sweep;
mod ticket;

pub use answer::{Answer, Outcome};
pub use examples::sessions_as_told;
pub use fault::{BookFault, Part, Unlawful};
pub use report::ReportLine;
pub use request::{Next, Request};
pub use state::{Phase, State};
pub use stop::StopOrder;
pub use sweep::Ending;
pub use ticket::{Kind, Ticket};
