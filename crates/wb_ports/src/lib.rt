//! What the program reaches outside itself: a sink for text, a shelf of files, and ports for the files of a
//! Pascal run, each by a trait with meanings; the ones in memory, and the ones over real files and streams.
#![tactic(auto)]

mod answers;
mod counting;
mod dir_shelf;
mod file_port;
mod gathering;
mod mem_port;
mod mem_shelf;
mod mem_sink;
mod port;
mod port_box;
mod quiet_sink;
mod reading;
mod shared_writer;
mod shelf;
mod sink;
mod std_port;
mod std_sink;
mod writing;

pub use answers::{Failed, PortErr};
pub use dir_shelf::DirShelf;
pub use file_port::FilePort;
pub use mem_port::MemPort;
pub use mem_shelf::MemShelf;
pub use mem_sink::MemSink;
pub use port::{Mode, PORT_LIMIT, PORT_NAME_LIMIT, Port};
pub use quiet_sink::QuietSink;
pub use reading::BLOCK;
pub use shared_writer::SharedWriter;
pub use shelf::{FailedCall, LOAD_LIMIT, Shelf, ShelfCall};
pub use sink::Sink;
pub use std_port::StdPort;
pub use std_sink::StdSink;
