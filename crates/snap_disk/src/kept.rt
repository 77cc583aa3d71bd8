use crate::{NewFile, Pending};
use plane_io::Items;

/// What a body keeps: what waits, and the old bytes of files.
#[derive(Drop)]
pub struct Kept {
    pub(crate) pending: Pending,
    pub(crate) files: Items<NewFile>,
}
