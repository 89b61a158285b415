//! One broker shared by threads. Each answer that a thread gets stands in one history, which a broker of one thread explains.
#![tactic(auto)]

mod closed;
mod counted;
mod crosses;
mod desk;
mod laws;
mod pass;
mod plays;
mod seats;
mod steps;
mod turn;
mod view;
mod waiting;

pub use closed::{Closed, DeskEnd};
pub use counted::CountedBroker;
pub use desk::Desk;
pub use laws::{all_was_seen, own_entries, seen_goes_on};
pub use pass::Pass;
pub use view::{DeskRule, Entry, Stage, View};
