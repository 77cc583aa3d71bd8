//! What an interface is, told over a graph of devices: whether it is enabled, claimed, ready and
//! up, its device and its layer-3 device, each as its definition says; and what it gives, counted
//! in a table of gifts.
#![tactic(auto)]

mod giving;
mod interfaces;
mod look;
mod names;
mod radios;
mod requests;

pub use look::Look;
