//! Tests of the parts that read the JSON text of AMF data, and nothing else.
#![tactic(auto)]

#[cfg(test)]
mod called_tests;
#[cfg(test)]
mod scalars_tests;
#[cfg(test)]
mod verdict_tests;
