//! The messages of a Flex client, and the answers to them.
#![tactic(auto)]

mod class;
mod facts;
mod lookup;
mod not_a_message;
mod number;
mod replies;
mod reply;
mod request;
mod stored;
mod viewing;
mod writing;

pub use class::Class;
pub use facts::{
    acknowledge_law, answers_alike, batch_law, delivered_law, error_law, flex_rows, invalidate_law,
    join_law, published_law, sync_law, view_law,
};
pub use lookup::{header, member};
pub use not_a_message::NotAMessage;
pub use number::{small, whole_number};
pub use replies::{acknowledge, error, invalidate, sync};
pub use reply::{FaultText, Reply};
pub use request::{Common, Member, Request};
pub use stored::{delivered, is_stored, published};
pub use viewing::{text_alone, view, view_value};
pub use writing::{add_headers, add_message, add_object, add_text};
