//! A message broker of publish and subscribe, as a machine that answers one call after another.
#![tactic(auto)]

mod broker;
mod call;
mod crosses;
mod ended;
mod ids;
mod laws;
mod limits;
mod lines;
mod log;
mod logs;
mod mailbox;
mod member;
mod merge;
mod moment;
mod payload;
mod place;
mod reply;
mod room;
mod roster;
mod slot;
mod spots;
mod switchboard;
mod topic;
mod trim;

pub use broker::Broker;
pub use call::Call;
pub use ids::{ClientId, SubId};
pub use laws::{delivery_holds, entries_count};
pub use limits::{MAX_CLIENTS, MAX_IDLE, MAX_MESSAGE, MAX_QUEUED, MAX_SUBS, MAX_SUBTOPIC};
pub use payload::Payload;
pub use reply::{Answer, ClientIds, Deliveries, Delivery, Reply, SubIds};
pub use topic::Topic;
