//! One line of a script on the plane of interfaces: events, answers and operators' commands are
//! taken, committed files are loaded, the kernel is settled, and status is shown.
#![tactic(auto)]

mod finishing;
mod loading;
mod requests;
mod show;
mod take;
mod taken;
mod told;

pub use finishing::{finish, settle_and_show};
pub use loading::{load_package, reload};
pub use requests::lines_of_requests;
pub use show::{show_device, show_dump, show_interface, show_radio};
pub use take::{take_answer, take_device, take_load, take_operator, take_radio};
pub use taken::Taken;
pub use told::{Told, line_error, refuse, tell, tell_nothing, tell_text};
