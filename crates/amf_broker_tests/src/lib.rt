//! Tests of the broker and its desk, of the taker and of courses of events, and nothing else.
#![tactic(auto)]

#[cfg(test)]
mod answers;
#[cfg(test)]
mod broker_tests;
#[cfg(test)]
mod calls;
#[cfg(test)]
mod checks;
#[cfg(test)]
mod course_tests;
#[cfg(test)]
mod desk_tests;
#[cfg(test)]
mod events;
#[cfg(test)]
mod lossy_tests;
#[cfg(test)]
mod taker_tests;
