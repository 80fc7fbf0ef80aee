//! What can be wrong with a capture in the form pcapng.

use thiserror::Error;

/// What is wrong at a byte.
#[derive(Clone, Copy, Debug, PartialEq, Eq, Error)]
pub enum Flaw {
    /// The byte order of a section is not 1A2B3C4D or its reverse.
    #[error("the byte order of the section is not known")]
    Order,
    /// The version of a section isn't 1.0.
    #[error("the version of the section is not 1.0")]
    Version,
    /// The length of a block isn't a multiple of 4, or is less than its fields.
    #[error("the length of the block is not a multiple of 4, or less than its fields")]
    Length,
    /// The length at the end of a block isn't that at its front.
    #[error("the two lengths of the block differ")]
    Lengths,
    /// A block with a packet is larger than 524,288 bytes.
    #[error("the block of the packet is larger than 524288 bytes")]
    Large,
    /// An interface isn't Ethernet.
    #[error("the packets of the interface are not Ethernet frames")]
    Link,
    /// A section has more than 256 interfaces.
    #[error("the section has more than 256 interfaces")]
    Interfaces,
    /// An option is longer than its block, or hasn't the size of its kind.
    #[error("the option is longer than its block, or has not the size of its kind")]
    Option,
    /// A packet has the number of an interface that its section doesn't have.
    #[error("the section has no such interface")]
    Interface,
    /// A second has 2^64 ticks or more.
    #[error("the times of the interface are finer than 64 bits can count")]
    Resolution,
    /// A packet came before 1970 or after 2^32 seconds.
    #[error("the packet came before the year 1970, or after February 2106")]
    Time,
    /// A packet is larger than 262,144 bytes, or than its block.
    #[error("the packet is larger than 262144 bytes, or than its block")]
    Packet,
    /// A simple packet block has no time.
    #[error("the packet has no time: it is in a simple packet block")]
    Untimed,
    /// A packet block of before 2009.
    #[error("the packet is in an obsolete packet block; `editcap -F pcapng` writes the capture anew")]
    Obsolete,
}
