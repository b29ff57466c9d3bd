// Why images were not written. It stands in a module of its own since the function `unwritten` has its name but for the capital.

ghost use Rattle.std.specs.Prelude.{◌≡◌, Some};
ghost use Rattle.bundle.specs.Bundle.{unwritten_number, unwritten_words};

use std::error::Error;
use std::fmt;

#[derive(Clone, Copy, Debug, PartialEq, Eq)]
pub enum Unwritten {
    // 0 images, or over 32; a length of 0; too little room, or too few bits; lengths that are not those of the bytes.
    WrongCount,
    EmptyImage,
    NoRoom,
    WrongLengths,
}

impl fmt::Display for Unwritten {
    ghost output = { λ unwritten. Some (unwritten_words unwritten) };

    fn fmt<W: fmt::Write>(&self, f: &mut fmt::Formatter<W>) -> fmt::Result {
        f.write_str(match self {
            Unwritten::WrongCount => "not 1 to 32 images",
            Unwritten::EmptyImage => "an image has no bytes",
            Unwritten::NoRoom => "too little room, or a number past 32 bits",
            Unwritten::WrongLengths => "the lengths are not those of the bytes",
        })
    }
}

impl Error for Unwritten {}

// The number that C hears.
impl From<Unwritten> for u32 {
    ghost from_gives = { λ unwritten number. number ≡ unwritten_number unwritten };

    fn from(unwritten: Unwritten) -> u32 {
        match unwritten {
            Unwritten::WrongCount => 1,
            Unwritten::EmptyImage => 2,
            Unwritten::NoRoom => 3,
            Unwritten::WrongLengths => 4,
        }
    }
}
