//! Tests of passes over RTMP chunk streams, and nothing else.
#![tactic(auto)]

#[cfg(test)]
mod rechunk_tests;
