//! Tests of the reader and the chunker of RTMP chunk streams, and nothing else.
#![tactic(auto)]

#[cfg(test)]
mod checks;
#[cfg(test)]
mod push_tests;
#[cfg(test)]
mod read_tests;
#[cfg(test)]
mod told;
