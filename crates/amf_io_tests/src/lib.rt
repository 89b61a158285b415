//! Tests of numbers and texts, of the outside, of HTTP and of asking a backend, and nothing else.
#![tactic(auto)]

#[cfg(test)]
mod backend_tests;
#[cfg(test)]
mod checks;
#[cfg(test)]
mod fields;
#[cfg(test)]
mod http_firsts;
#[cfg(test)]
mod http_head_tests;
#[cfg(test)]
mod http_link_tests;
#[cfg(test)]
mod http_loopback_tests;
#[cfg(test)]
mod io_cursor_tests;
#[cfg(test)]
mod io_dial_tests;
#[cfg(test)]
mod io_fields_tests;
#[cfg(test)]
mod io_format_tests;
#[cfg(test)]
mod io_hall_tests;
#[cfg(test)]
mod io_outside_tests;
#[cfg(test)]
mod wire_tests;
