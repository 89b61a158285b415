//! Tests of packets, of shared object files and of the listings, and nothing else.
#![tactic(auto)]

#[cfg(test)]
mod checks;
#[cfg(test)]
mod class_show_tests;
#[cfg(test)]
mod packet_show_tests;
#[cfg(test)]
mod packet_tests;
#[cfg(test)]
mod show_tests;
#[cfg(test)]
mod sol_read_tests;
#[cfg(test)]
mod sol_show_tests;
#[cfg(test)]
mod sol_tests;
#[cfg(test)]
mod sol_write_tests;
