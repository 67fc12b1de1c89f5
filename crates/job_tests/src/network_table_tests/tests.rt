//! Networks and schedules of which a read fails, or for which memory is refused.

use job::Fault;
use network::network_table::{Network, NetworkRunFault, read_network};
use network::port_schedules::{PortSchedule, SchedulesRunFault, read_schedules};
use script::Unwatched;
use std::alloc::{Allocator, Global};
use std::test::Fail;
use test_support::refusing_heap::RefusingHeap;
use test_support::test_streams::Pieces;
use text::line_reader::LineReader;

/// Three ports in a row. Ports are numbered as they are mentioned: a talker's, then c, b and a.
const ROW: &[u8] = b"# a row of ports\n\
port talker rate 100 room 16\n\
stream 1 7 60 500us 0us 1 via talker c\n\
link b a 1us\n\
stream 1000 5 1514 1ms any 1 tagged jitter 2us \\\n\
 via c b a\n\
\n\
link c b 500ns 2us\n\
clocks 100ns\n\
link talker c 0ns\n\
port a mtu 9000\n";

/// One command each for three of the ports.
const COMMANDS: &[u8] = b"# one command for each\n\
tc qdisc replace dev c root taprio num_tc 1 map 0 sched-entry S 01 1000000\n\
tc qdisc replace root handle 100: dev talker taprio num_tc 1 map 0 sched-entry S 01 1000000\n\
tc qdisc replace dev a parent root taprio num_tc 1 map 0 sched-entry S 01 1000000\n";

/// The network of the row in this memory, where a read fails or none does.
fn row_in<A: Allocator + Clone>(
    alloc: &A,
    own: Global,
    fails_at: u32,
) -> Result<Network<A>, NetworkRunFault> {
    let mut reader = Pieces::new(ROW, 100);
    reader.fails_at = fails_at;
    let Ok(mut lines) = LineReader::new(own, reader) else {
        return Err(Fault::Memory);
    };
    read_network(alloc, &mut lines, &mut Unwatched)
}

/// Puts the schedules of the row's ports behind those that are kept, where a read fails or none does.
fn commands_in<A: Allocator>(
    kept: &mut Vec<PortSchedule, A>,
    own: Global,
    fails_at: u32,
) -> Result<(), SchedulesRunFault> {
    let Ok(network) = row_in(&own, own, u32::MAX) else {
        return Err(Fault::Write);
    };
    let mut reader = Pieces::new(COMMANDS, 100);
    reader.fails_at = fails_at;
    let Ok(mut lines) = LineReader::new(own, reader) else {
        return Err(Fault::Memory);
    };
    read_schedules(kept, &network, &mut lines, &mut Unwatched)
}

/// Each read of a network fails in turn: three pieces, and the end.
#[test]
fn reads_of_a_network_that_fail(rt: HostRuntime) -> Result<(), Fail> {
    for call in 0..4 {
        let read = row_in(&rt.alloc(), rt.alloc(), call);
        assert_eq!(rt; read.err(), Some(Fault::Read));
    }
    let network = row_in(&rt.alloc(), rt.alloc(), 4).ok().ok_or("a network")?;
    assert_eq!(rt; network.names.len(), 4);
    Ok(())
}

/// Each growth of a network refused in turn, until a call asks for no further one.
#[test]
fn a_network_wants_memory_only_where_it_is_refused(rt: HostRuntime) -> Result<(), Fail> {
    let mut done = false;
    for number in 0..20 {
        let heap = RefusingHeap::new(rt.alloc(), number, true);
        let read = row_in(&&heap, rt.alloc(), u32::MAX);
        let refused = heap.asked() > number;
        assert_eq!(rt; read.err(), refused.then_some(Fault::Memory));
        done = !refused;
    }
    assert_eq!(rt; done, true);
    Ok(())
}

/// Each read of schedules fails in turn: three pieces, and the end.
#[test]
fn reads_of_schedules_that_fail(rt: HostRuntime) -> Result<(), Fail> {
    for call in 0..4 {
        let mut kept = Vec::new(rt.alloc());
        let read = commands_in(&mut kept, rt.alloc(), call);
        assert_eq!(rt; read, Err(Fault::Read));
    }
    let mut kept = Vec::new(rt.alloc());
    let read = commands_in(&mut kept, rt.alloc(), 4);
    assert_eq!(rt; read, Ok(()));
    assert_eq!(rt; kept.len(), 3);
    Ok(())
}

/// Each growth of the list of schedules refused in turn, until a call asks for no further one.
#[test]
fn schedules_want_memory_only_where_it_is_refused(rt: HostRuntime) -> Result<(), Fail> {
    let mut done = false;
    for number in 0..8 {
        let heap = RefusingHeap::new(rt.alloc(), number, true);
        let mut kept = Vec::new(&heap);
        let read = commands_in(&mut kept, rt.alloc(), u32::MAX);
        let refused = heap.asked() > number;
        assert_eq!(rt; read.err(), refused.then_some(Fault::Memory));
        done = !refused;
    }
    assert_eq!(rt; done, true);
    Ok(())
}
