//! The outside as a source, a sink and a store of files: of the system, and in memory.
#![tactic(auto)]

mod file_store;
mod laws;
mod mem_sink;
mod mem_source;
mod mem_store;
mod reading;
mod sink;
mod source;
mod store;

pub use file_store::FileStore;
pub use laws::constants_are_stated;
pub use mem_sink::{MemSink, SureSink};
pub use mem_source::{MemSource, SureSource};
pub use mem_store::{MemStore, SureStore};
pub use reading::{AllFault, read_all};
pub use sink::{Put, Sink, WriteFailed, WriteSink, write_all, write_text};
pub use source::{ReadSource, Source, Take};
pub use store::{FileFault, SaveFault, Store};
