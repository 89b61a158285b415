//! FLV files (Adobe, Video File Format Specification 10.1, annex E): which fields make one, the verdict on an input, its metadata,
//! and the readers of its head and of its tags.
#![tactic(auto)]

mod facts;
mod flv_job;
mod head;
mod laws;
mod meta_bytes;
mod meta_end;
mod meta_part;
mod meta_read;
mod meta_write;
mod next;
mod tag;
mod tag_fields;

pub use facts::worked_files;
pub use flv_job::FlvJob;
pub use head::read_head;
pub use laws::{
    file_faults_are_first, files_fix_next_kind, files_have_one_verdict, metadata_laws,
    tag_refusals_lift,
};
pub use meta_end::{MetaEnd, MetaTagEnd};
pub use meta_part::is_metadata;
pub use meta_read::{metadata, metadata_keyed};
pub use meta_write::meta_tag;
pub use next::next_tag;
pub use tag::{Tag, TagBytes};
