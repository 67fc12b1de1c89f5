//! Why a capture can't be read or written.

/// Why there is no capture, or no next record of it. Of a file header the first four are found in this order, of a
/// record the next four: `ShortRecord` where the record header ends early, `LongRecord`, `BadFraction`,
/// `TooManyRecords`, and `ShortRecord` where the octets end early.
#[derive(Clone, Copy, Debug, PartialEq, Eq)]
pub enum CapFault {
    /// The input ends before the 24 octets of the file header.
    ShortHeader,
    /// The first four octets are no magic number that is read, in either order.
    BadMagic,
    /// The version is not 2.4.
    BadVersion,
    /// The link type is not 1, Ethernet.
    BadLink,
    /// The input ends within a record.
    ShortRecord,
    /// A record has more than `MAX_RECORD_OCTETS` octets.
    LongRecord,
    /// The fraction of a time stamp is a second or more.
    BadFraction,
    /// There are more than `MAX_RECORDS` records.
    TooManyRecords,
    /// The moment of a record was moved, before moment 0 or past the last that is wanted. No reader finds it: who moves the
    /// moments does.
    BadShift,
    /// A read failed. It isn't tried again.
    Read,
    /// A write failed or took nothing. It isn't tried again.
    Write,
    /// Out of memory.
    Memory,
}
