//! Tests of graphs that are told out of order, and nothing else.
#![tactic(auto)]

#[cfg(test)]
mod sheet_tests;
