//! Tests of the heads, tags and metadata of FLV files, and nothing else.
#![tactic(auto)]

#[cfg(test)]
mod checks;
#[cfg(test)]
mod file_tests;
#[cfg(test)]
mod meta_tag_tests;
#[cfg(test)]
mod metadata_tests;
#[cfg(test)]
mod walk;
