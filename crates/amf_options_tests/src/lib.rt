//! Tests of what words of a command line give options, and nothing else.
#![tactic(auto)]

#[cfg(test)]
mod options_tests;
