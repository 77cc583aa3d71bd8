//! The kinds of messages.

/// A new client is told its number.
pub const HELLO: u8 = 0;

/// How a request or a call ended.
pub const STATUS: u8 = 1;

pub const DATA: u8 = 2;

pub const PING: u8 = 3;

pub const LOOKUP: u8 = 4;

pub const INVOKE: u8 = 5;

pub const ADD_OBJECT: u8 = 6;

pub const REMOVE_OBJECT: u8 = 7;

pub const SUBSCRIBE: u8 = 8;

pub const UNSUBSCRIBE: u8 = 9;

pub const NOTIFY: u8 = 10;
