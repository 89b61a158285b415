//! Tests of the program's jobs on media, of its calls and of its listener, over streams and dials in memory, and nothing else.
#![tactic(auto)]

#[cfg(test)]
mod call_tests;
#[cfg(test)]
mod cases;
#[cfg(test)]
mod dials;
#[cfg(test)]
mod example_tests;
#[cfg(test)]
mod flv_tests;
#[cfg(test)]
mod listen_tests;
#[cfg(test)]
mod rtmp_tests;
#[cfg(test)]
mod runs;
#[cfg(test)]
mod words_tests;
