//! IPv4 and IPv6 addresses and prefixes: read from text, and printed in one form.
//!
//! An IPv4 address is read in dotted decimal, and an IPv6 address as RFC 4291, section 2.2, writes
//! it. No call takes memory.
#![tactic(auto)]

mod address;
mod error;
mod laws;
mod mask;
mod network;
mod prefix;
mod print;
mod read;

pub use address::{Addr, V4, V6};
pub use error::AddrError;
pub use laws::{
    distinct_texts, first_longest_run, one_address, one_cidr, one_network, printed_cidr_reads_back,
    printed_reads_back, short_plain_ipv4_texts, short_plain_texts,
};
pub use mask::mask_length;
pub use network::network_of;
pub use prefix::Cidr;
pub use print::{hex_digit, print_addr, print_cidr};
pub use read::{read_addr, read_cidr};
