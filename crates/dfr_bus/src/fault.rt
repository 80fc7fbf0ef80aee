//! What can be wrong with a frame or a capture.

ghost use Rattle.std.specs.Prelude.{◌≡◌};
ghost use Rattle.dfr_bus.specs.Readings as spec;

use thiserror::Error;

/// The first fault from left to right.
#[derive(Clone, Copy, Debug, PartialEq, Eq, Error)]
#[error("byte {at}: {wrong}")]
pub struct Fault {
    /// The place of the byte, counted from the first of the bytes that were handed over.
    pub at: usize,
    /// What is wrong there.
    pub wrong: Wrong,
}

/// What is wrong at a byte. The clauses are those of ITU-T X.690.
#[derive(Clone, Copy, Debug, PartialEq, Eq, Error)]
pub enum Wrong {
    /// The bytes, or the element round them, end here and a field goes on.
    #[error("a field goes on where the bytes end")]
    CutShort,
    /// Another tag than this one stands here.
    #[error("the tag is not {0}")]
    Tag(u8),
    /// The length is indefinite (8.1.3.6).
    #[error("the length is indefinite")]
    IndefiniteLength,
    /// The length begins with the byte 255 (8.1.3.5).
    #[error("the length begins with 255")]
    ReservedLength,
    /// The length is larger than what is left.
    #[error("the length is larger than what is left")]
    TooLong,
    /// The element that begins here hasn't the size of its field.
    #[error("the element has not the size of its field")]
    Size,
    /// The length in the head of a frame is less than its head.
    #[error("the length of the frame is less than that of its head")]
    Length,
    /// The number of ASDUs is not 1 to 8.
    #[error("the number of ASDUs is not 1 to 8")]
    Asdus,
    /// The data isn't a whole number of values of 4 bytes with a quality of 4 bytes.
    #[error("the data is not of values and qualities of 4 bytes each")]
    Uneven,
    /// The first four bytes are not those of a capture.
    #[error("the file is not a capture")]
    Magic,
    /// The version of the file isn't 2.4.
    #[error("the version of the capture is not 2.4")]
    Version,
    /// The packets aren't Ethernet frames.
    #[error("the packets are not Ethernet frames")]
    Link,
    /// A packet is larger than 262144 bytes.
    #[error("the packet is larger than 262144 bytes")]
    Packet,
    /// The number is negative, not below 2^32, or has no byte.
    #[error("the number is not 0 to 4294967295")]
    Number,
    /// No element of data has this tag.
    #[error("no element of data has this tag")]
    Kind,
    /// Bytes stand after the last field.
    #[error("bytes stand after the last field")]
    Trailing,
}

/// A fault at a byte.
pub(crate) fn fault_at(at: usize, wrong: Wrong) -> Fault
    ensures { result ≡ spec.fault at wrong }
{
    Fault { at, wrong }
}
