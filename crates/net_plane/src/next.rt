/// The numbers of requests are below this. Where they run out, events want memory.
pub const MOST_NEXT: u64 = 1 << 63;
