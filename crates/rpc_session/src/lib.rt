//! Who may do what on the message bus, until when: sessions that expire, with grants by patterns,
//! as OpenWrt's rpcd has them.
#![tactic(auto)]

mod altering;
mod answering;
mod arguments;
mod by_name;
mod denied;
mod description;
mod grant;
mod laws;
mod method;
mod objects;
mod pattern;
mod serve;
mod session;
mod session_error;
mod sessions;
mod values;

pub use arguments::{
    argument, array_argument, array_of, id_text, session_named, table_argument, table_of,
    text_argument, text_of,
};
pub use denied::Denied;
pub use grant::Grant;
pub use laws::values_stand_in_order;
pub use pattern::fits;
pub use session::Session;
pub use session_error::SessionError;
pub use sessions::{MOST_SESSIONS, Sessions};
