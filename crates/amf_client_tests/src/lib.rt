//! Tests of the calling end over links in memory: calls byte for byte, and replies, good and bad.
#![tactic(auto)]

#[cfg(test)]
mod ask_tests;
#[cfg(test)]
mod checks;
#[cfg(test)]
mod ended_tests;
#[cfg(test)]
mod replies;
#[cfg(test)]
mod reply_tests;
