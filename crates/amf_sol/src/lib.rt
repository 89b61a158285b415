//! Shared object files (`.sol`): which fields spell one, the verdict on an input, the shared object itself, its reader and its
//! writer.
#![tactic(auto)]

mod facts;
mod fixed;
mod head;
mod holder;
mod laws;
mod pairs;
mod read;
mod shared_object;
mod sol_end;
mod sol_version;
mod write;
mod write_head;
mod write_pairs;

pub use facts::worked_files;
pub use laws::{
    file_faults_are_first, files_fix_fields, files_fix_next_kind, files_have_holders,
    files_have_one_verdict, files_or_lacks,
};
pub use read::{read_sol, read_sol_keyed};
pub use shared_object::SharedObject;
pub use sol_end::SolEnd;
pub use sol_version::SolVersion;
pub use write::{write_sol, write_sol_keyed};
