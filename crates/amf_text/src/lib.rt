//! What the JSON text of AMF data is and means. Only the definitions and their laws stand here.
#![tactic(auto)]

mod facts;
mod reason;

pub use facts::{
    digit_laws, digits_exist, document_laws, document_rows, fault_laws, goal_laws, graph_laws,
    json_exists, leaf_laws, link_laws, meaning_rows, number_laws, one_meaning, reads_back,
    refusal_rows, round_trip, same_json, text_laws, text_rows, token_laws, told_meant, value_laws,
    verdict_rows, whole_laws,
};
pub use reason::TextReason;
