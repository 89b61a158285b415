//! Tests of the messages of Flex clients and of services, and nothing else.
#![tactic(auto)]

#[cfg(test)]
mod checks;
#[cfg(test)]
mod flex_tests;
#[cfg(test)]
mod service_tests;
