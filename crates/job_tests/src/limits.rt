//! The limits of the program, in one place. Each function runs nothing: its contract says what the constants of a
//! subject are, so that a number that is changed where it stands is refused here.
ghost use Rattle.std.specs.Prelude.{◌≡◌, ◌-◌, ◌*◌, ◌/◌, ◌^◌};
ghost use Rattle.wire_time.specs.Moment.{greatest_moment};
ghost use Rattle.wire_time.specs.declared.TheConstants.{CLASSES, MAX_MOMENT, MAX_MTU, MAX_PS_PER_OCTET, MIN_MTU, MIN_PS_PER_OCTET, PRIORITIES};
ghost use Rattle.gates.specs.declared.gate_list.TheConstants.{MAX_BASE_NS, MAX_CYCLE_NS, MAX_ENTRIES};
ghost use Rattle.abstract_port.specs.declared.class_queue.TheConstants.{MAX_ROOM};
ghost use Rattle.text.specs.declared.line_reader.lines.TheConstants.{MAX_LINES, MAX_LINE_OCTETS};
ghost use Rattle.capture.specs.declared.format.TheConstants.{MAX_RECORDS, MAX_RECORD_OCTETS};
ghost use Rattle.capture.specs.declared.writer.TheConstants.{CAPTURE_END};
ghost use Rattle.picture.specs.declared.TheConstants.{MAX_WIDTH, MOST_BOUNDARIES, MOST_SHAPES};
ghost use Rattle.stream_bounds.specs.declared.settings.TheConstants.{MAX_FRAMES};

/// Time: a moment is at most 2^63 - 1 nanoseconds, in picoseconds: the greatest `ktime_t` of Linux, in which
/// tc-taprio(8) gives times.
pub fn time_limits()
    ensures moment { MAX_MOMENT ≡ 1000 * (2 ^ 63 - 1) }
    ensures defined { greatest_moment ≡ MAX_MOMENT }
{}

/// The port: eight traffic classes (IEEE Std 802.1Q-2018, 8.6.6); sixteen priorities, as the map of tc-taprio(8) has
/// them; an mtu of 68 octets (RFC 791, 3.2) to 9216; queues of 4096 frames; 10 Mb/s to 100 Gb/s.
pub fn port_limits()
    ensures classes { CLASSES ≡ 8 }
    ensures priorities { PRIORITIES ≡ 16 }
    ensures least_mtu { MIN_MTU ≡ 68 }
    ensures greatest_mtu { MAX_MTU ≡ 9216 }
    ensures room { MAX_ROOM ≡ 4096 }
    ensures slowest { MAX_PS_PER_OCTET ≡ 8 * 10 ^ 12 / (10 * 10 ^ 6) }
    ensures fastest { MIN_PS_PER_OCTET ≡ 8 * 10 ^ 12 / (100 * 10 ^ 9) }
{}

/// Schedules: 256 entries; cycles and extensions of 2^40 nanoseconds, some 18 minutes; base times of 63 bits.
pub fn schedule_limits()
    ensures entries { MAX_ENTRIES ≡ 256 }
    ensures cycle { MAX_CYCLE_NS ≡ 2 ^ 40 }
    ensures base { MAX_BASE_NS ≡ 2 ^ 63 - 1 }
{}

/// Text: 4,000,000 lines of 65,536 octets.
pub fn text_limits()
    ensures lines { MAX_LINES ≡ 4000000 }
    ensures octets { MAX_LINE_OCTETS ≡ 65536 }
{}

/// Captures: 4,000,000 records of 262,144 octets, as libpcap has them; time stamps up to 2^32 seconds
/// (pcap-savefile(5)).
pub fn capture_limits()
    ensures records { MAX_RECORDS ≡ 4000000 }
    ensures octets { MAX_RECORD_OCTETS ≡ 262144 }
    ensures end { CAPTURE_END ≡ 2 ^ 32 * 10 ^ 12 }
{}

/// Pictures: 2400 pixels wide; 5,000 bands or shapes that lie in a lane one by one; and 100,000 boundaries that are
/// looked at.
pub fn picture_limits()
    ensures wide { MAX_WIDTH ≡ 2400 }
    ensures lane { MOST_SHAPES ≡ 5000 }
    ensures boundaries { MOST_BOUNDARIES ≡ 100000 }
{}

/// Bounds: 1,000,000,000 frames of a class.
pub fn answer_limits()
    ensures { MAX_FRAMES ≡ 1000000000 }
{}
