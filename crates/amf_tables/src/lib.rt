//! The tables of readers and writers of AMF 3: what an index names, and at which index an entry stands first.
#![tactic(auto)]

mod content_hash;
mod first_places;
mod hashed_texts;
mod known_places;
mod known_texts;
mod known_words;
mod node_run;
mod node_table;
mod spelled_nodes;
mod tables3;
mod text_codes;
mod text_place;
mod text_table;
mod traits_entry;
mod traits_table;
mod writer_tables;
mod written_entry;
mod written_texts;

pub use known_words::KnownWords;
pub use tables3::Tables3;
pub use text_place::TextPlace;
pub use writer_tables::WriterTables;
