//! Tests of the JSON texts of values, packets and files, and nothing else.
#![tactic(auto)]

#[cfg(test)]
mod checks;
#[cfg(test)]
mod file_tests;
#[cfg(test)]
mod packet_tests;
#[cfg(test)]
mod value_tests;
