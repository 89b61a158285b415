//! Tests of calls over memory, from end to end, and nothing else.
#![tactic(auto)]

#[cfg(test)]
mod ends;
#[cfg(test)]
mod round_tests;
