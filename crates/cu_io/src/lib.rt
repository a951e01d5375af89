//! What the system meets outside itself: the library that holds module
//! texts, the input that it reads and the output that it writes, each as a
//! trait with a count of faults, with objects in memory and adapters to files
//! and standard streams.
#![tactic(auto)]

mod calls;
mod folder_library;
mod input_source;
mod library;
mod output_sink;
mod shelf;
mod sink;
mod source;
mod vec_sink;
mod vec_source;

pub use folder_library::FolderLibrary;
pub use input_source::InputSource;
pub use library::{Fetched, Library};
pub use output_sink::OutputSink;
pub use shelf::ShelfLibrary;
pub use sink::{Put, Sink};
pub use source::{Source, Took};
pub use vec_sink::VecSink;
pub use vec_source::VecSource;
