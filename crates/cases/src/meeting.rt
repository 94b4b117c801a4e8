// Where somebody writes a cell that is read, or nobody does. The other rows of that table bench/compare asks of the archive.
// A loop over a cell that nobody writes, and over one that somebody does.
pub const LOOPS: [(&str, &[u8]); 2] = [
    (
        "K",
        b"ORD\x01\x00\x01\x02\
          \x00\x02\x01\x00\x01\xFF\
          \x00\x01\x02\x00\x00\xFF",
    ),
    (
        "K written",
        b"ORD\x01\x00\x02\x03\
          \x00\x02\x01\x00\x01\xFF\
          \x00\x01\x02\x00\x00\xFF\
          \x01\x02\x02\x00\xFF\xFF",
    ),
];

// Two routines that read two cells in opposite orders: nobody writes, and an RMW of an unknown cell does.
pub const READERS: [(&str, &[u8]); 2] = [
    (
        "readers",
        b"ORD\x01\x00\x02\x04\
          \x00\x01\x01\x00\x01\xFF\
          \x00\x01\x02\x00\xFF\xFF\
          \x01\x01\x02\x00\x03\xFF\
          \x01\x01\x01\x00\xFF\xFF",
    ),
    (
        "an unknown RMW",
        b"ORD\x01\x00\x03\x05\
          \x00\x01\x01\x00\x01\xFF\
          \x00\x01\x02\x00\xFF\xFF\
          \x01\x01\x02\x00\x03\xFF\
          \x01\x01\x01\x00\xFF\xFF\
          \x02\x03\x00\x00\xFF\xFF",
    ),
];

// A read of an unknown cell and one of x: a write meets only the first, and another one both.
pub const UNKNOWN_READ: [(&str, &[u8]); 2] = [
    (
        "an unknown read",
        b"ORD\x01\x00\x02\x03\
          \x00\x01\x00\x00\x01\xFF\
          \x00\x01\x01\x00\xFF\xFF\
          \x01\x02\x02\x00\xFF\xFF",
    ),
    (
        "and its cell written",
        b"ORD\x01\x00\x03\x04\
          \x00\x01\x00\x00\x01\xFF\
          \x00\x01\x01\x00\xFF\xFF\
          \x01\x02\x02\x00\xFF\xFF\
          \x02\x02\x01\x00\xFF\xFF",
    ),
];

// Two reads of unknown cells in a row, a pair that is joined to itself only where somebody writes.
pub const UNKNOWN_READS: [(&str, &[u8]); 2] = [
    (
        "unknown reads",
        b"ORD\x01\x00\x01\x02\
          \x00\x01\x00\x00\x01\xFF\
          \x00\x01\x00\x00\xFF\xFF",
    ),
    (
        "and any cell written",
        b"ORD\x01\x00\x02\x03\
          \x00\x01\x00\x00\x01\xFF\
          \x00\x01\x00\x00\xFF\xFF\
          \x01\x02\x03\x00\xFF\xFF",
    ),
];
