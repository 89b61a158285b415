//! Tests of the listing of RTMP chunk streams, and nothing else.
#![tactic(auto)]

#[cfg(test)]
mod show_tests;
