//! A test of the program over the network: one side of it calls what the other serves.
#![tactic(auto)]

#[cfg(test)]
mod given;
#[cfg(test)]
mod loopback_tests;
