// What a container holds at most.

// The most records of a container.
pub const MOST_RECORDS: usize = 63;

// The most payload bytes of a container. No payload is longer, so that a buffer of this length takes any: no call may
// allocate, and so a payload is read into an array of this length, whatever its own.
pub const MOST_BYTES: usize = 7168;
