//! Tests of the jobs on media, and nothing else.
#![tactic(auto)]

#[cfg(test)]
mod checks;
#[cfg(test)]
mod flv_tests;
#[cfg(test)]
mod rtmp_tests;
#[cfg(test)]
mod runs;
#[cfg(test)]
mod set_tests;
