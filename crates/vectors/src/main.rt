// Published CRC-32 vectors, through the proved sum.
//
// A published value carries a final complement, and the sum of a DFU file has none. So each line
// has the name, the length, the sum, and the complement of the sum, which is the published value.
//
// The sources named below were not looked up: each value stood the test of a second computation of
// its message's sum, but was not read from its source.
#![tactic(auto)]

use print::Hex;
use std::io;

// Each vector's name and message.
const VECTORS: [(&str, &[u8]); 18] = [
    // The value of `check` is the check of CRC-32/ISO-HDLC in the Catalogue of parametrised CRC
    // algorithms. Those of `empty`, `a`, `old`, `past`, `pole` and `mars` are in the tests of Go's
    // hash/crc32, in the table of golden values. That of `fox` has no source here, as those of the runs below.
    ("empty", b""),
    ("a", b"a"),
    ("check", b"123456789"),
    ("old", b"Discard medicine more than two years old."),
    (
        "past",
        b"He who has a shady past knows that nice guys finish last.",
    ),
    ("pole", b"I wouldn't marry him with a ten foot pole."),
    (
        "mars",
        b"Free! Free!/A trip/to Mars/for 900/empty jars/Burma Shave",
    ),
    ("fox", b"The quick brown fox jumps over the lazy dog"),
    // AUTOSAR, Specification of CRC Routines: the examples of the 32-bit Ethernet CRC.
    ("routines-1", &[0, 0, 0, 0]),
    ("routines-2", &[0xF2, 0x01, 0x83]),
    ("routines-3", &[0x0F, 0xAA, 0x00, 0x55]),
    ("routines-4", &[0x00, 0xFF, 0x55, 0x11]),
    (
        "routines-5",
        &[0x33, 0x22, 0x55, 0xAA, 0xBB, 0xCC, 0xDD, 0xEE, 0xFF],
    ),
    ("routines-6", &[0x92, 0x6B, 0x55]),
    ("routines-7", &[0xFF, 0xFF, 0xFF, 0xFF]),
    // The messages of RFC 3720, B.4, whose own values are of another polynomial. Their CRC-32 values,
    // and that of `fox`, are widely quoted; we know no first source.
    ("zeros", &[0; 32]),
    ("ones", &[0xFF; 32]),
    (
        "rising",
        b"\x00\x01\x02\x03\x04\x05\x06\x07\x08\x09\x0A\x0B\x0C\x0D\x0E\x0F\x10\x11\x12\x13\x14\x15\x16\x17\x18\x19\x1A\x1B\x1C\x1D\x1E\x1F",
    ),
];

fn main(rt: HostRuntime) -> io::Result<()> {
    for (name, message) in VECTORS {
        let length = message.len();
        let sum = Hex(crc::sum(message));
        let published = Hex(!sum.0);
        println!(rt; "{name} {length} {sum} {published}")?;
    }
    Ok(())
}
