//! Tests of the gateway over links in memory: known requests with their answers, and hostile ones.
#![tactic(auto)]

#[cfg(test)]
mod answered;
#[cfg(test)]
mod checks;
#[cfg(test)]
mod flex_tests;
#[cfg(test)]
mod plain_tests;
#[cfg(test)]
mod refusal_tests;
#[cfg(test)]
mod requests;
