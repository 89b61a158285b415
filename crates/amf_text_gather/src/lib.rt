//! Gathers what a JSON text of AMF data says, token by token, as pages.
#![tactic(auto)]

mod closing;
mod draft;
mod frame;
mod gather;
mod piece;
mod reading;
mod scalars;
mod steps;

pub use reading::gather_text;
