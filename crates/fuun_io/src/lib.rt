//! Reading whole files and writing whole texts, over any folder and any sink.
#![tactic(auto)]

mod folder;
mod mem_folder;
mod mem_sink;
mod no_memory;
mod put;
mod read;
mod sink;

pub use folder::{Failed, Folder};
pub use mem_folder::MemFolder;
pub use mem_sink::MemSink;
pub use no_memory::NoMemory;
pub use put::{WriteFault, put_all, put_pieces};
pub use read::{ReadError, read_all};
pub use sink::Sink;

#[cfg(test)]
mod tests;
