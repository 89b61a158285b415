//! Tests of what JSON texts of AMF data mean, and nothing else.
#![tactic(auto)]

#[cfg(test)]
mod shown;
#[cfg(test)]
mod text_tests;
#[cfg(test)]
mod told;
