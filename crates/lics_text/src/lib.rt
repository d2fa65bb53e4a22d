//! Texts as 1-2-3 keeps them: at most 240 bytes of the Lotus International Character Set, each 32
//! to 255, compared and changed byte by byte. And lists of few bytes of any value, which take no
//! memory, and the bytes of ASCII by the names that definitions speak by.
#![tactic(auto)]

mod byte_list;
mod bytes;
mod cases;
mod faults;
mod held;
mod line;
mod names;
mod places;
mod prefix;
mod room;
mod short_text;
mod text;
mod text_line;
mod text_ref;
mod text_room;
mod trim;

pub use byte_list::ByteList;
pub use bytes::TextByte;
pub use faults::{Memory, TextFault};
pub use line::Line;
pub use names::{is_name, name_in};
pub use prefix::LabelPrefix;
pub use short_text::ShortText;
pub use text::Text;
pub use text_line::TextLine;
pub use text_ref::TextRef;
pub use text_room::TextRoom;

/// The most bytes of a text and of a line (Release 2 manual).
pub const MAX_LEN: usize = 240;
