//! The rows of a `network` and a `wireless` package, the limits of lists, and the laws of rows that
//! are read: they are sound, each name stands once, and within limits they are few.
#![tactic(auto)]

mod limits;
mod once_laws;
mod reading;
mod row_laws;
mod sound_laws;

pub use limits::{MOST_INTERFACES, MOST_RADIOS, MOST_ROUTES, MOST_WIFI_ROWS};
pub use once_laws::{names_that_are_read_stand_once, rows_within_limits_are_few};
pub use reading::read_conf;
pub use row_laws::{limits_of_devices, limits_of_events, limits_of_rows, words_of_rows};
pub use sound_laws::{
    levels_that_are_read_are_sound, names_that_are_read_are_sound, rows_that_are_read_are_sound,
    vlans_that_are_read_are_sound,
};
