// Listings of version 2: what ARMv8 keeps in order, and between which ends its fences bar.
// A message and its mark, and who waits for it: with a release and an acquire, and with a store fence and a load fence.
pub const MESSAGES: [(&str, &[u8]); 2] = [
    (
        "released and acquired",
        b"ORD\x02\x00\x02\x04\
          \x00\x02\x01\x00\x01\xFF\
          \x00\x06\x02\x00\xFF\xFF\
          \x01\x05\x02\x00\x03\xFF\
          \x01\x01\x01\x00\xFF\xFF",
    ),
    (
        "a store fence, a load fence",
        b"ORD\x02\x00\x02\x06\
          \x00\x02\x01\x00\x01\xFF\
          \x00\x08\x00\x00\x02\xFF\
          \x00\x02\x02\x00\xFF\xFF\
          \x01\x01\x02\x00\x04\xFF\
          \x01\x07\x00\x00\x05\xFF\
          \x01\x01\x01\x00\xFF\xFF",
    ),
];

// Each routine releases one cell, then acquires the other, with acquire_pc too.
pub const BUFFERS: [(&str, &[u8]); 2] = [
    (
        "release then acquire",
        b"ORD\x02\x00\x02\x04\
          \x00\x06\x01\x00\x01\xFF\
          \x00\x05\x02\x00\xFF\xFF\
          \x01\x06\x02\x00\x03\xFF\
          \x01\x05\x01\x00\xFF\xFF",
    ),
    (
        "release then acquirePC",
        b"ORD\x02\x00\x02\x04\
          \x00\x06\x01\x00\x01\xFF\
          \x00\x09\x02\x00\xFF\xFF\
          \x01\x06\x02\x00\x03\xFF\
          \x01\x09\x01\x00\xFF\xFF",
    ),
];
