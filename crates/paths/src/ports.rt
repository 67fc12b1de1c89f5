//! The ports of a network, each with the schedule that is in force there for ever.

ghost use Rattle.std.specs.Prelude.{◌≡◌, ◌≤◌, ◌++◌, ◌∷◌, [], All, IfErr, IfOk, None, Ok, length};
ghost use Rattle.job.specs.declared.fault.Fault.TheVariants as Faults;
ghost use Rattle.network.specs.Network.{first_of};
ghost use Rattle.network.specs.Reads.{seen};
ghost use Rattle.path_bounds.specs.Hops.{IsPort};
ghost use Rattle.paths.specs.Ports.{IsWhy, clocks_of, lead_in, lead_of, made_at, made_unless, open_change, open_list, open_map, or_setup, port_by, port_count, ports_from, ports_in, settings_at, setup_at, setup_by, since_of, values_of};
ghost use Rattle.paths.specs.declared.ports.TheConstants.{MOST_NETWORK_PORTS};
ghost use Rattle.schedule_check.specs.Refusals.{early_refusal};
ghost use Rattle.stream_bounds.specs.Classes.{port_before, refusal_of};
ghost use Rattle.wire_time.specs.Moment.{greatest_moment};

use crate::faults::{PathsFault, PathsInput};
use abstract_port::class_map::ClassMap;
use abstract_port::{Change, Refused};
use gates::gate_list::{Entry, GateList, Schedule};
use network::network_table::{Clocks, Network, PortSetting, PortValues};
use network::port_schedules::{PortSchedule, schedule_at};
use path_bounds::PathPort;
use schedule_check::early_refusal;
use script::Settings;
use std::alloc::Global;
use stream_bounds::BoundsSettings;
use wire_time::MAX_MOMENT;

/// The most ports of a network.
pub const MOST_NETWORK_PORTS: usize = 65536;

/// For how long the one entry lasts of a port without a command, in nanoseconds.
const OPEN_NS: u32 = 1_000_000;

/// What a line says of a port.
fn values_of(port: usize, setting: &PortSetting) -> Option<PortValues>
    ensures { result ≡ values_of port setting.now }
{
    if setting.port == port {
        Some(setting.values)
    } else {
        None
    }
}

/// What lines say of a port.
fn values_at(port: usize, settings: &[PortSetting]) -> Option<PortValues>
    ensures { result ≡ first_of (values_of port) settings.now }
{
    for setting in settings {
        if let Some(values) = values_of(port, setting) {
            return Some(values);
        }
    }
    None
}

/// What a port has by these values, and else by what the options say.
fn setup_by(base: Settings, values: PortValues) -> Settings
    ensures { result ≡ or_setup base (setup_by base values) }
{
    let rate = values.rate.unwrap_or(base.rate());
    let mtu = values.mtu.unwrap_or(base.mtu());
    let room = values.room.unwrap_or(base.room());
    match Settings::new(rate, mtu, room, None) {
        Ok(said) => said,
        Err(_) => base,
    }
}

/// What a port has, where something may be said of it.
fn setup_at(base: Settings, values: Option<PortValues>) -> Settings
    ensures { result ≡ setup_at base values }
{
    match values {
        Some(values) => setup_by(base, values),
        None => base,
    }
}

/// By what a port is judged.
pub fn settings_at(
    settings: &BoundsSettings,
    network: &Network<Global>,
    port: usize,
) -> BoundsSettings
    ensures { result ≡ settings_at settings.now (seen network.now) port }
{
    let values = values_at(port, network.settings.as_slice());
    BoundsSettings {
        port: setup_at(settings.port, values),
        ..*settings
    }
}

/// The map by which priorities 0 to 7 are classes 0 to 7.
fn open_map() -> Option<ClassMap>
    ensures { result ≡ open_map }
{
    match ClassMap::new(8, &[0, 1, 2, 3, 4, 5, 6, 7]) {
        Ok(map) => Some(map),
        Err(_) => None,
    }
}

/// A list that opens all gates.
fn open_list() -> GateList
    ensures { result ≡ open_list }
{
    let entry = Entry {
        mask: 255,
        interval: OPEN_NS,
    };
    match GateList::new(&[entry]) {
        Ok(list) => list,
        Err(_) => GateList::closed(),
    }
}

/// A change by which all gates are open.
fn open_change() -> Change
    ensures { result ≡ open_change }
{
    Change {
        map: open_map(),
        queues: None,
        max_sdu: None,
        list: open_list(),
        base_ns: 0,
        cycle_ns: 0,
        extension_ns: 0,
    }
}

/// For how long a schedule is in force at moment zero, and no less than that: both in picoseconds.
fn since_of(schedule: &Schedule, lead: u128) -> u128
    requires { lead ≤ greatest_moment }
    ensures { result ≡ since_of schedule.now lead }
{
    let base = 1000 * u128::from(schedule.base_ns());
    let cycle = 1000 * u128::from(schedule.cycle_ns());
    lead + (cycle - (lead + base) % cycle) % cycle
}

/// By how much two clocks differ at most, in picoseconds.
pub(crate) fn clocks_of(clocks: Option<Clocks>) -> u128
    ensures { result ≡ clocks_of clocks }
{
    match clocks {
        Some(clocks) => clocks.difference,
        None => 0,
    }
}

/// By how much clocks may differ along a way through so many ports, in picoseconds.
fn lead_of(clocks: u128, ports: usize) -> u128
    ensures lead { result ≡ lead_of clocks ports }
    ensures within { result ≤ greatest_moment }
{
    clocks.saturating_mul(ports as u128).min(MAX_MOMENT)
}

/// A port with a change that a new one doesn't refuse for its map or its limits.
fn fitting_port(
    settings: BoundsSettings,
    change: Change,
    line: u32,
    lead: u128,
) -> Result<PathPort, PathsInput>
    requires lead { lead ≤ greatest_moment }
    requires fitting { early_refusal (port_before settings) change ≡ None }
    ensures made { result
        ≡ made_unless (refusal_of settings change) line (port_by settings change lead) }
    ensures is { IfOk result IsPort }
{
    let schedule = Schedule::new(
        &change.list,
        change.base_ns,
        change.cycle_ns,
        change.extension_ns,
        settings.port.rate(),
    );
    match schedule {
        Ok(schedule) => {
            let since = since_of(&schedule, lead);
            Ok(PathPort {
                settings,
                change,
                schedule,
                since,
            })
        }
        Err(fault) => Err(PathsInput::Refused(line, Refused::Schedule(fault))),
    }
}

/// A port with a change, unless a new one refuses it.
fn changed_port(
    settings: BoundsSettings,
    change: Change,
    line: u32,
    lead: u128,
) -> Result<PathPort, PathsInput>
    requires lead { lead ≤ greatest_moment }
    ensures made { result
        ≡ made_unless (refusal_of settings change) line (port_by settings change lead) }
    ensures is { IfOk result IsPort }
{
    match early_refusal(settings.port.mtu(), settings.map, &change) {
        Some(why) => Err(PathsInput::Refused(line, why)),
        None => fitting_port(settings, change, line, lead),
    }
}

/// A port, or why its schedule is refused.
fn as_made(made: Result<PathPort, PathsInput>) -> Result<PathPort, PathsFault>
    ensures port { IfOk result (λ port. made ≡ Ok port) }
    ensures fault { IfErr result (λ why. IsWhy why made) }
{
    match made {
        Ok(port) => Ok(port),
        Err(fault) => Err(PathsFault::Input(fault)),
    }
}

/// A copy of a list.
fn copied_list(list: &GateList) -> GateList
    ensures { result ≡ list.now }
{
    match GateList::new(list.entries()) {
        Ok(copy) => copy,
        Err(_) => GateList::closed(),
    }
}

/// A copy of a change.
fn copied(change: &Change) -> Change
    ensures { result ≡ change.now }
{
    Change {
        map: change.map,
        queues: change.queues,
        max_sdu: change.max_sdu,
        list: copied_list(&change.list),
        base_ns: change.base_ns,
        cycle_ns: change.cycle_ns,
        extension_ns: change.extension_ns,
    }
}

/// The port of a number, unless its schedule is refused.
fn port_at(
    settings: &BoundsSettings,
    network: &Network<Global>,
    kept: &[PortSchedule],
    lead: u128,
    number: usize,
) -> Result<PathPort, PathsFault>
    requires lead { lead ≡ lead_in (seen network.now) }
    requires within { lead ≤ greatest_moment }
    ensures port { IfOk result
        (λ port. made_at settings.now (seen network.now) kept.now number ≡ Ok port) }
    ensures fault { IfErr result
        (λ why. IsWhy why (made_at settings.now (seen network.now) kept.now number)) }
    ensures is { IfOk result IsPort }
{
    let own = settings_at(settings, network, number);
    let made = match schedule_at(number, kept) {
        Some(schedule) => changed_port(own, copied(&schedule.change), schedule.line, lead),
        None => changed_port(own, open_change(), 0, lead),
    };
    as_made(made)
}

/// How many ports a network has.
pub(crate) fn port_count(network: &Network<Global>) -> usize
    ensures { result ≡ port_count (seen network.now) }
{
    network.names.len().max(1)
}

/// Puts a port behind others.
fn put_port(ports: &mut Vec<PathPort, Global>, port: PathPort) -> Result<(), PathsFault>
    requires all { All IsPort ports.old.items }
    requires is { IsPort port }
    ensures ports { IfOk result (λ _. ports.new.items ≡ ports.old.items ++ port ∷ []) }
    ensures all { All IsPort ports.new.items }
    ensures memory { IfErr result (λ fault. fault ≡ Faults.Memory) }
{
    match ports.push(port) {
        Ok(()) => Ok(()),
        Err(_) => Err(PathsFault::Memory),
    }
}

/// So many ports of a network.
fn first_ports(
    alloc: Global,
    settings: &BoundsSettings,
    network: &Network<Global>,
    kept: &[PortSchedule],
    count: usize,
) -> Result<Vec<PathPort, Global>, PathsFault>
    ensures ports { IfOk result (λ ports.
        ports_from settings.now (seen network.now) kept.now count 0 [] ≡ Ok ports.items) }
    ensures fault { IfErr result (λ why.
        IsWhy why (ports_from settings.now (seen network.now) kept.now count 0 [])) }
    ensures all { IfOk result (λ ports. All IsPort ports.items) }
    ensures few { IfOk result (λ ports. length ports.items ≡ count) }
{
    let lead = lead_of(clocks_of(network.clocks), port_count(network));
    let mut ports = Vec::new(alloc);
    for number in 0..count {
        let port = port_at(settings, network, kept, lead, number)?;
        put_port(&mut ports, port)?;
    }
    Ok(ports)
}

/// The ports of a network, with their schedules. The first whose schedule a new port refuses is the fault.
pub fn ports_of(
    alloc: Global,
    settings: &BoundsSettings,
    network: &Network<Global>,
    kept: &[PortSchedule],
) -> Result<Vec<PathPort, Global>, PathsFault>
    ensures ports { IfOk result
        (λ ports. ports_in settings.now (seen network.now) kept.now ≡ Ok ports.items) }
    ensures fault { IfErr result
        (λ why. IsWhy why (ports_in settings.now (seen network.now) kept.now)) }
    ensures all { IfOk result (λ ports. All IsPort ports.items) }
    ensures few { IfOk result (λ ports. length ports.items ≤ MOST_NETWORK_PORTS) }
{
    let count = port_count(network);
    if count > MOST_NETWORK_PORTS {
        return Err(PathsFault::Input(PathsInput::Ports));
    }
    first_ports(alloc, settings, network, kept, count)
}
