//! What the program sees of the outside: shelves of files, sinks of text and a gate, each with an
//! implementation over memory and one over the machine. Each fault of the outside is counted.
#![tactic(auto)]

mod gate;
mod memory_shelf;
mod memory_sink;
mod no_fail_shelf;
mod no_fail_sink;
mod shelf;
mod sink;
mod system;
mod whole;

pub use gate::{Gate, OpenGate};
pub use memory_shelf::MemShelf;
pub use memory_sink::MemSink;
pub use no_fail_shelf::NoFailShelf;
pub use no_fail_sink::NoFailSink;
pub use shelf::{Read, Shelf};
pub use sink::{Put, Sink, WriteFailed, put_all};
pub use system::{ErrSink, FileShelf, OutSink, WriteSink};
pub use whole::{ReadEnd, read_whole};
