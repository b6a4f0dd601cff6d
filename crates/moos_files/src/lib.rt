//! The files and the standard output of the system, and files in memory.
//!
//! `dir_folder` and `out_sink` are the few lines that meet the real system. They note what it answered, for clauses alone
//! (`told`): each load with the bytes that it gave, and each piece that it said it took. `gathering_sink` stands before the
//! standard output, so that the system gets few large pieces; `mem_folder` keeps files in memory, for tests.
#![tactic(auto)]

mod dir_folder;
mod folder;
mod gathering_sink;
mod held_bytes;
mod mem_folder;
mod out_sink;
mod told;

pub use dir_folder::{DirFolder, MAX_FILE_LEN};
pub use folder::{Folder, LoadFault};
pub use gathering_sink::GatheringSink;
pub use mem_folder::MemFolder;
pub use out_sink::OutSink;
