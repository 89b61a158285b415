//! Tests of the program's calls, and nothing else.
#![tactic(auto)]

#[cfg(test)]
mod amf0_tests;
#[cfg(test)]
mod bytes_tests;
#[cfg(test)]
mod command_tests;
#[cfg(test)]
mod hostile_tests;
#[cfg(test)]
mod json_tests;
#[cfg(test)]
mod large_tests;
#[cfg(test)]
mod packet_tests;
#[cfg(test)]
mod real_tests;
#[cfg(test)]
mod runs;
#[cfg(test)]
mod serve_tests;
#[cfg(test)]
mod sol_tests;
#[cfg(test)]
mod start_tests;
#[cfg(test)]
mod tests;
