//! Packages on a disk that may stop at any moment: a commit is written whole or not at all, and an
//! apply that nobody confirms is undone from its deadline on, whatever stops it.
#![tactic(auto)]

mod body;
mod body_text;
mod kept;
mod laws;
mod names;
mod new_file;
mod opening;
mod phases;
mod snap;
mod snap_error;

pub use laws::{
    bodies_are_read, bodies_are_refused, bodies_are_written_so, body_or_wrong_place,
    disks_without_reading, no_body_with_wrong_place, one_body, one_wrong_place,
    written_bodies_spell,
};
pub use new_file::{NewFile, Pending, are_package_files};
pub use snap::Snap;
pub use snap_error::SnapError;
