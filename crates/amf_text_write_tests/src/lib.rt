//! Tests of what is written as a text, and nothing else.
#![tactic(auto)]

#[cfg(test)]
mod checks;
#[cfg(test)]
mod file_tests;
#[cfg(test)]
mod packet_tests;
#[cfg(test)]
mod value_tests;
