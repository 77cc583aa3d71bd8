//! Blobs, the typed attribute lists of OpenWrt's message bus (libubox's blobmsg), read and written.
#![tactic(auto)]

mod as_text;
mod attribute;
mod blob;
mod blob_error;
mod copy;
mod laws;
mod leaf;
mod nul;
mod read;
mod size;
mod write;

pub use as_text::{json_string, json_text};
pub use blob::{Attr, Blob, MOST_LEVELS};
pub use blob_error::BlobError;
pub use copy::copy_attrs;
pub use laws::{
    no_reading_with_fault, one_fault, one_reading, reading_or_fault, written_reads_back,
};
pub use read::read_blob;
pub use size::blob_size;
pub use write::write_blob;
