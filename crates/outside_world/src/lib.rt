//! The outside of the program, as traits: key bytes, files, the clock and notes. Each says what it
//! tells of its content and counts its faults. Beside each stands its form in memory, which tests use,
//! and the form that the program uses.
#![tactic(auto)]

mod bytes;
mod clock;
mod faults;
mod file_name;
mod host_clock;
mod host_keys;
mod host_notes;
mod host_shelf;
mod keys;
mod limits;
mod map_shelf;
mod new_file;
mod notes;
mod plain_file;
mod shelf;
mod waiting;

pub use bytes::ByteBuffer;
pub use clock::{Clock, ListClock};
pub use faults::{Failed, ShelfFault};
pub use file_name::{Ext, FileName};
pub use host_clock::HostClock;
pub use host_keys::HostKeys;
pub use host_notes::HostNotes;
pub use host_shelf::HostShelf;
pub use keys::{Keys, ListKeys};
pub use lics_text::Memory;
pub use limits::stack_limit;
pub use map_shelf::MapShelf;
pub use notes::{ListNotes, Notes};
pub use shelf::Shelf;
pub use waiting::Waiting;
