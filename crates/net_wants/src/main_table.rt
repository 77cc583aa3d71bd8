/// The table of routes that are in no other (`main`).
pub const MAIN_TABLE: u32 = 254;
