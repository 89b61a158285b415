//! Tests of one call over dials in memory: what comes of it, what was dialled and written, and each call that fails.
#![tactic(auto)]

#[cfg(test)]
mod broken_tests;
#[cfg(test)]
mod called_tests;
#[cfg(test)]
mod checks;
#[cfg(test)]
mod dials;
#[cfg(test)]
mod replies;
