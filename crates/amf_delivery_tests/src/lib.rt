//! A listener of our own gateway over memory: what it writes is what was published while it was subscribed, wherever its link is cut.
#![tactic(auto)]

#[cfg(test)]
mod cut_tests;
#[cfg(test)]
mod gateway;
#[cfg(test)]
mod listener;
#[cfg(test)]
mod long_tests;
#[cfg(test)]
mod requests;
