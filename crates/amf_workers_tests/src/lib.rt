//! Tests of workers at one desk over fronts in memory, and nothing else.
#![tactic(auto)]

#[cfg(test)]
mod worker_tests;
