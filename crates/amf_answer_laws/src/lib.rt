//! The laws of what a link is answered, and worked facts.
#![tactic(auto)]

mod facts;

pub use facts::{
    answers_are_fixed, byte_rows, client_rows, form_rows, link_rows, order_rows, plain_rows,
    poll_rows, remoting_rows, run_out_rows, served_is_beginning, text_rows, tried_is_run,
};
