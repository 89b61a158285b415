//! Services by their names, and the three that are shipped.
#![tactic(auto)]

mod arguments;
mod copies;
mod crosses;
mod echo;
mod facts;
mod faults;
mod names;
mod number;
mod registry;
mod service;
mod sum;
mod texts;

pub use arguments::{is_named, items, one_item};
pub use copies::{copied, kept};
pub use echo::Echo;
pub use facts::{service_laws, service_rows};
pub use faults::fault;
pub use names::Names;
pub use registry::{CallEnd, Registry, RegistryEnd};
pub use service::{Service, ServiceEnd};
pub use sum::Sum;
pub use texts::add_array;
