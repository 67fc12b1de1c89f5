//! Values of a fixed layout: fields of a fixed size, none of which has a value that is no value.

use wire_time::CLASSES;

/// A frame that arrives.
#[repr(C)]
#[derive(Clone, Copy)]
pub struct CFrame {
    /// The sender's name for the frame, which answers repeat.
    pub id: u64,
    /// Octets from the destination address to the end of the payload, without the frame check sequence.
    pub length: u32,
    /// The priority: 0 to 15 have a class.
    pub priority: u8,
    /// Whether the frame has a customer VLAN tag: 0 no, else yes.
    pub tagged: u8,
}

/// One entry of a gate control list.
#[repr(C)]
#[derive(Clone, Copy)]
pub struct CEntry {
    /// For how many nanoseconds.
    pub interval: u32,
    /// Which classes are open: bit c is class c.
    pub gates: u8,
}

/// The device queues of one class.
#[repr(C)]
#[derive(Clone, Copy)]
pub struct CRange {
    /// How many queues.
    pub count: u16,
    /// The first of them.
    pub offset: u16,
}

/// A schedule.
#[repr(C)]
#[derive(Clone, Copy)]
pub struct CSchedule {
    /// The base time (AdminBaseTime), in nanoseconds.
    pub base_time: u64,
    /// The cycle time (AdminCycleTime), in nanoseconds; 0 for the sum of the intervals.
    pub cycle_time: u64,
    /// The cycle time extension (AdminCycleTimeExtension), in nanoseconds.
    pub extension: u64,
    /// How many entries there are: 1 to 256.
    pub length: u32,
    /// How many classes there are, 1 to 8; 0 for the map and the queues as before.
    pub num_tc: u8,
    /// Whether `queues` counts: 0 no, else yes.
    pub has_queues: u8,
    /// Whether `max_sdu` counts: 0 no, else yes.
    pub has_max_sdu: u8,
    /// Nothing.
    pub unused: u8,
    /// The class of each priority.
    pub map: [u8; 16],
    /// The device queues of each class.
    pub queues: [CRange; CLASSES],
    /// For each class the longest service data unit that is queued, in octets; 0 for no limit of its own.
    pub max_sdu: [u32; CLASSES],
    /// The gate control list: the first `length` count.
    pub entries: [CEntry; 256],
}

/// What a call answers. A field that its kind does not name is 0.
#[repr(C)]
#[derive(Clone, Copy)]
pub struct CAnswer {
    /// The frame's name.
    pub id: u64,
    /// A moment, in picoseconds: `at_high * 2^64 + at_low`.
    pub at_low: u64,
    /// See `at_low`.
    pub at_high: u64,
    /// The moment at which the wire is free again, in picoseconds: `end_high * 2^64 + end_low`.
    pub end_low: u64,
    /// See `end_low`.
    pub end_high: u64,
    /// What the answer is.
    pub kind: u32,
    /// Why something was not done.
    pub reason: u32,
    /// A class, 0 to 7.
    pub class: u32,
    /// The index of an entry.
    pub entry: u32,
}

/// What a port shows.
#[repr(C)]
#[derive(Clone, Copy)]
pub struct CReport {
    /// The port's moment, in picoseconds: `now_high * 2^64 + now_low`.
    pub now_low: u64,
    /// See `now_low`.
    pub now_high: u64,
    /// How many frames were dropped since their priority has no class.
    pub no_class: u64,
    /// Which classes are open now: bit c is class c.
    pub gates: u8,
    /// Whether a command waits for its lead or change moment: 0 no, 1 yes.
    pub pending: u8,
}

/// What a class shows of its counts and its queue: frames, but for the octets.
#[repr(C)]
#[derive(Clone, Copy)]
pub struct CCounters {
    /// Frames that were queued.
    pub accepted: u64,
    /// Frames that started.
    pub sent: u64,
    /// Octets of the frames that started.
    pub sent_octets: u64,
    /// Frames that wait now.
    pub waiting: u64,
    /// Frames dropped as too short for their header.
    pub runt: u64,
    /// Frames dropped as longer than the mtu.
    pub too_long: u64,
    /// Frames dropped as longer than the class's limit.
    pub over_sdu: u64,
    /// Frames dropped since the queue was full.
    pub full: u64,
}
