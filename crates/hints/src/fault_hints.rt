//! Faults that end a run.

use crate::marks::{Hint, put_hint, span_at};
use crate::script_words::{bad_number, unknown_line, unknown_network_line, word_count};
use job::{CaptureKind, FaultKind, LineKind, ValueKind};
use port_text::answer_text::{Part, WriteFault, put_parts};
use std::io::Write;

/// What helps with the fault of a line, where the line is known.
fn line_hint(kind: LineKind, line: &[u8]) -> Option<Hint> {
    let hint = match kind {
        LineKind::LongLine => Hint::plain(
            b"a line has at most 65536 octets, with those that backslashes join to it",
        ),
        LineKind::TooManyLines => Hint::plain(
            b"an input has at most 4000000 lines; where streams writes one, each frame takes a line, and each moment another",
        ),
        LineKind::NoLink | LineKind::NoWay => Hint::plain(network_text(kind)),
        LineKind::NoColumn => Hint::plain(
            b"a file that begins as no capture is a table, whose first line names the columns id and start_ps",
        ),
        LineKind::FieldCount => {
            Hint::plain(
                b"each line has as many fields, with commas between, as the first one names",
            )
        }
        LineKind::NoPayload => {
            Hint::plain(b"a table of frames has no octets: --by payload compares captures")
        }
        _ if line.is_empty() => return None,
        LineKind::UnknownLine => unknown_line(line, false),
        LineKind::UnknownTableLine => unknown_line(line, true),
        LineKind::WordCount => word_count(line),
        LineKind::BadNumber => bad_number(line),
        LineKind::ClockTooLate => Hint::marked(
            span_at(line, 1),
            b"the greatest moment is 9223372036854775807000 ps, in a replay 4294967296000000000000 ps",
        ),
        LineKind::StreamTooLate => Hint::plain(
            b"the last frame comes at OFFSET and COUNT - 1 times PERIOD, with --from later: at most 9223372036854775807000 ps, in a capture before 4294967296 s",
        ),
        LineKind::FrameInReplay => Hint::marked(
            span_at(line, 0),
            b"in a replay frames come from the capture",
        ),
        LineKind::UnknownNetworkLine => unknown_network_line(line),
        LineKind::NoCommand => Hint::plain(
            b"a schedule is one line: tc qdisc replace dev NAME root taprio .., and NAME is a port of the network",
        ),
        kind => Hint::plain(network_text(kind)),
    };
    Some(hint)
}

/// What helps with the fault of a network, or of the schedules of its ports.
fn network_text(kind: LineKind) -> &'static [u8] {
    match kind {
        LineKind::BadName => b"a port's name is 1 to 15 octets, as of a device: sw1-p2",
        LineKind::SecondPort =>
            b"one port line says all that a port has: port NAME rate 100 room 64",
        LineKind::SecondLink =>
            b"one link line leads from a port to another; the way back has its own",
        LineKind::SecondClocks => b"one clocks line says how far any two ports' clocks differ",
        LineKind::PortTwice =>
            b"behind via stand the ports that a frame crosses, in order, each once",
        LineKind::NoLink => b"each step of a way needs its line: link FROM TO TIME",
        LineKind::NoWay => b"with several ports each stream says its way: via NAME NAME ..",
        LineKind::Deletion => b"a port without a schedule has no line here: its gates are open",
        LineKind::UnknownPort => b"the word behind dev is a port of the network",
        LineKind::Uncrossed =>
            b"nothing would be judged: a stream's way names the port, or the line goes",
        _ => b"each port has one schedule",
    }
}

/// What the value of an option is.
fn value_text(kind: ValueKind) -> &'static [u8] {
    match kind {
        ValueKind::Rate =>
            b"--rate is 10, 100, 1000, 2500, 5000, 10000, 25000, 40000, 50000 or 100000 (Mb/s)",
        ValueKind::Mtu => b"--mtu is a whole number of octets from 68 to 9216",
        ValueKind::Room => b"--room is a whole number of frames from 1 to 4096",
        ValueKind::Map =>
            b"--map is 1 to 16 classes from 0 to 7 in one word, those of the priorities from 0 up: --map \"0 1 2\"",
        ValueKind::Frame => b"--frame is a whole number of octets from 0 to 4294967295",
        ValueKind::Frames => b"--frames is a whole number from 1 to 1000000000",
        ValueKind::Silent =>
            b"--silent is classes from 0 to 7, each once, with commas: --silent 6,7",
        ValueKind::Until =>
            b"--until is picoseconds, or a number with its unit such as 2ms, at most 9223372036854775807000 ps; of a replay 4294967296 s",
        ValueKind::Stamp => b"--stamp is start or end",
        ValueKind::Seed =>
            b"--seed is a whole number from 0 to 18446744073709551615, and not beside --late",
        ValueKind::From =>
            b"--from is picoseconds, or a number with its unit such as 2ms, at most 9223372036854775807000 ps; of a picture 9223372036854774807000 ps",
        ValueKind::To =>
            b"--to is picoseconds, or a number with its unit such as 2ms, and after --from",
        ValueKind::Width => b"--width is a whole number of pixels from 400 to 2400",
        ValueKind::Cycle =>
            b"--cycle is a time of whole nanoseconds with its unit, such as 1ms: 1 ns to 4294967295 ns",
        ValueKind::Entries => b"--entries is a whole number from 1 to 256",
        ValueKind::LeastInterval =>
            b"--least-interval is a time of whole nanoseconds with its unit, such as 10us: at most 4294967295 ns",
        ValueKind::Device =>
            b"--device is the name of a network device: 1 to 15 octets, such as eth0",
        ValueKind::BaseTime =>
            b"--base-time is a whole number of nanoseconds from 0 to 9223372036854775807",
        ValueKind::Next => b"--next is the name of a port of the network",
        ValueKind::Shift =>
            b"--shift is picoseconds, or a number with its unit such as 37s, with - in front for an earlier moment",
        ValueKind::Format => b"--format is pcap, pcapng or auto",
        ValueKind::Fcs => b"--fcs is absent or present",
        ValueKind::By => b"--by is order, id or payload",
        ValueKind::Within => b"--within is picoseconds, or a number with its unit such as 1us",
    }
}

/// What helps with the fault of a capture.
fn capture_text(kind: CaptureKind) -> &'static [u8] {
    match kind {
        CaptureKind::ShortHeader =>
            b"a capture begins with a header of 24 octets: this one ends before",
        CaptureKind::BadMagic =>
            b"this is no classic pcap file. If it is pcapng: --format auto reads it",
        CaptureKind::BadVersion => b"the version of a classic pcap file is 2.4",
        CaptureKind::BadLink =>
            b"the link type of the capture is Ethernet (1): capture at one Ethernet interface",
        CaptureKind::ShortRecord =>
            b"the capture ends within this record: it was cut. tcpdump -U writes each packet at once",
        CaptureKind::LongRecord =>
            b"a record has at most 262144 octets: the capture is damaged from here on",
        CaptureKind::BadFraction => b"the fraction of a time stamp is below a second",
        CaptureKind::TooManyRecords =>
            b"a capture has at most 4000000 records: editcap -c 4000000 IN OUT splits it",
        CaptureKind::BadShift =>
            b"with --shift each record comes at moment 0 or later, and at 4294967296000000000000 ps at most",
        CaptureKind::NoId =>
            b"a frame carries an ID where streams --capture made it; --by payload or --by order compares others",
    }
}

/// Writes a text that helps.
fn put_text<W: Write>(writer: &mut W, text: &'static [u8]) -> Result<(), WriteFault> {
    put_hint(writer, b"", Hint::plain(text))
}

/// What a file is that begins like this, and is no capture that a replay reads.
fn kind_of(octets: &[u8]) -> Option<&'static [u8]> {
    match octets {
        [0x0a, 0x0d, 0x0d, 0x0a, ..] => Some(b"this is a pcapng file: --format auto reads it"),
        [0x1f, 0x8b, ..] => Some(b"this is a gzip file: gunzip it first"),
        [0x28, 0xb5, 0x2f, 0xfd, ..] => Some(b"this is a zstd file: unzstd it first"),
        [b'f', b'r', b'a', b'm', b'e', b' ', ..]
        | [b't', b'c', b' ', ..]
        | [b'c', b'l', b'o', b'c', b'k', b' ', ..] => {
            Some(b"this is a script, no capture: the order of a replay is SCRIPT CAPTURE OUT")
        }
        _ => None,
    }
}

/// The name of a link type.
fn link_name(link: u32) -> &'static [u8] {
    match link {
        0 => b"NULL (loopback)",
        1 => b"EN10MB (Ethernet), with further bits set",
        9 => b"PPP",
        101 => b"RAW (IP alone)",
        105 => b"IEEE802_11 (wireless)",
        113 => b"LINUX_SLL (tcpdump -i any)",
        127 => b"IEEE802_11_RADIO (wireless)",
        276 => b"LINUX_SLL2 (tcpdump -i any)",
        _ => b"another one",
    }
}

/// The link type of a header, without its further bits.
fn link_of(octets: &[u8]) -> Option<u32> {
    let [a, _, _, d, ..] = octets else {
        return None;
    };
    let first = [*a, *d];
    let (_, rest) = octets.split_at(octets.len().min(20));
    let [e, f, g, h, ..] = rest else {
        return None;
    };
    let link = if first == [0xa1, 0xd4] || first == [0xa1, 0x4d] {
        u32::from_be_bytes([*e, *f, *g, *h])
    } else {
        u32::from_le_bytes([*e, *f, *g, *h])
    };
    Some(link & 0x0fff_ffff)
}

/// Writes the link type of a header.
fn put_link<W: Write>(writer: &mut W, link: u32) -> Result<(), WriteFault> {
    put_parts(
        writer,
        &[
            Part::Text(b"    the link type is "),
            Part::Number(u128::from(link)),
            Part::Text(b", "),
            Part::Text(link_name(link)),
            Part::Text(b": a replay reads Ethernet (1)\n"),
        ],
    )
}

/// Writes what helps with the fault of a capture that begins with these octets.
fn put_capture_hint<W: Write>(
    writer: &mut W,
    kind: CaptureKind,
    octets: &[u8],
) -> Result<(), WriteFault> {
    match (kind, kind_of(octets), link_of(octets)) {
        (CaptureKind::BadMagic, Some(text), _) => put_text(writer, text),
        (CaptureKind::BadLink, _, Some(link)) => put_link(writer, link),
        _ => put_text(writer, capture_text(kind)),
    }
}

/// Writes what helps with a fault: of this line, which is empty where no line has it or it isn't known, or of a capture
/// that begins with these octets, which are none where it isn't known.
pub fn put_fault_hint<W: Write>(
    writer: &mut W,
    kind: FaultKind,
    line: &[u8],
    capture: &[u8],
) -> Result<(), WriteFault> {
    let text: &'static [u8] = match kind {
        FaultKind::Line(kind) => match line_hint(kind, line) {
            Some(hint) => return put_hint(writer, line, hint),
            None => return Ok(()),
        },
        FaultKind::Capture(kind) => return put_capture_hint(writer, kind, capture),
        FaultKind::Value(kind) => value_text(kind),
        FaultKind::Found => return Ok(()),
        FaultKind::NoSchedule =>
            b"a schedule of standard input that a new port accepts is judged: in a pipe, perhaps what comes before failed",
        FaultKind::NoStream =>
            b"the file has no line such as: stream 1 7 60 250us 0us 1 deadline 1ms",
        FaultKind::OutIsInput =>
            b"OUT would be emptied before it is read: give it a name of its own",
        FaultKind::CannotOpen =>
            b"the path, and the right to open it; - is the standard input of a replay alone",
        FaultKind::ReadFailed | FaultKind::WriteFailed =>
            b"the call isn't tried again: check the disk, or the program at the other end of the pipe",
        FaultKind::OutOfMemory =>
            b"the system refused memory: a table of streams and the script of a replay are kept in it",
    };
    put_text(writer, text)
}
