//! Tests of a listener over dials in memory: what comes of sessions, what was dialled and written, each bad reply, and a link that ends at each byte.
#![tactic(auto)]

#[cfg(test)]
mod bad_tests;
#[cfg(test)]
mod checks;
#[cfg(test)]
mod dials;
#[cfg(test)]
mod lost_tests;
#[cfg(test)]
mod replies;
#[cfg(test)]
mod session_tests;
