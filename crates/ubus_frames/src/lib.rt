//! Frames of OpenWrt's message bus (ubus): one message with its head and its attributes, read and
//! written, however the bytes are cut.
#![tactic(auto)]

mod feeder;
mod field;
mod fits;
mod frame;
mod frame_error;
mod head;
mod laws;
mod numbers;
mod parts;
mod read;
mod value;
mod write;

pub use feeder::Feeder;
pub use fits::frame_fits;
pub use frame::{Frame, MOST_BLOB};
pub use frame_error::FrameError;
pub use head::frame_size;
pub use laws::{
    divided_however_cut, fed_bytes, one_division, one_frame_fault, short_rest, taken_bytes,
    written_reads_back,
};
pub use read::read_frame;
pub use write::write_frame;
