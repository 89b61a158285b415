//! Jobs on media: FLV files, tag by tag, and RTMP chunk streams, message by message.
#![tactic(auto)]

mod ending;
mod flv_file;
mod flv_laws;
mod flv_run;
mod flv_set;
mod flv_show;
mod flv_tags;
mod gather;
mod rtmp_laws;
mod rtmp_run;

pub use ending::MediaEnd;
pub use flv_laws::{
    accepted_files_are_refused_at_values, refused_files_are_not_done, set_values_have_one_form,
};
pub use flv_meta::FlvJob;
pub use flv_run::{flv, flv_keyed};
pub use rtmp_laws::streams_end_by_verdict;
pub use rtmp_run::{rtmp, rtmp_keyed};
