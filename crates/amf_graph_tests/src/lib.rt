//! Tests of graphs, of the tables of readers and writers, of the canonical order, and of what is read and written of graphs in
//! AMF 3 and in AMF 0, and nothing else.
#![tactic(auto)]

#[cfg(test)]
mod amf0_write_tests;
#[cfg(test)]
mod amf3_write_tests;
#[cfg(test)]
mod checks;
#[cfg(test)]
mod graph_tests;
#[cfg(test)]
mod iso_tests;
#[cfg(test)]
mod read_tests;
#[cfg(test)]
mod tables_tests;
#[cfg(test)]
mod texts_tests;
#[cfg(test)]
mod vectors_tests;
