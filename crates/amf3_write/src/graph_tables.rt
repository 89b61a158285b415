ghost use Rattle.std.specs.Prelude.{◌≡◌};
ghost use Rattle.amf_graph.specs.Arena.{Arena};
ghost use Rattle.amf_tables.specs.KnownWords.{AreKnownOf};

use amf_tables::{KnownWords, WriterTables};
use std::alloc::Global;

/// The tables of a writer of the parts of one graph, and what is known of the places of the graph's texts and traits: each
/// of them is looked up by its content once, however many parts name it.
#[derive(Drop)]
pub struct GraphTables {
    pub tables: WriterTables,
    pub known: KnownWords,
}

impl GraphTables {
    /// These tables, of which nothing is known yet.
    pub fn of(alloc: Global, mut tables: WriterTables) -> GraphTables
        ensures tables { result.tables ≡ tables }
        ensures known { (a : Arena) → AreKnownOf a result.tables.words result.known }
    {
        // Where there is no memory for it, some of their texts are compared one by one.
        let _ = tables.settle_texts();
        GraphTables {
            tables,
            known: KnownWords::new(alloc),
        }
    }
}
