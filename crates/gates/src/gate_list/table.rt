//! The table of open time: how long each class stays open from the start of each entry of a list repeated for ever.
//!
//! It is made once, in time linear in the entries, by a walk from the end of the cycle to its start. It has the slot
//! that closes a class, which is an octet, in place of the time up to there: a row of all classes is then one word.
ghost use Rattle.std.specs.Prelude.{◌≡◌, ◌≢◌, ℕ, ◌<◌, ◌≤◌, ◌+◌, ◌^◌, Some, false, drop, if◌then◌else◌, length, slice_get, take};
ghost use Rattle.gates.specs.Closed.{closed_entries};
ghost use Rattle.gates.specs.Gate.{in_ps, opens};
ghost use Rattle.gates.specs.declared.gate_list.TheConstants.{MAX_CYCLE_NS};
ghost use Rattle.gates.specs.Stay.{slots};
ghost use Rattle.gates.specs.Table.{AreBits, AreStarts, GoesRound, HasStays, IsRow, IsWithin, all_open, closing_at, next_shut, stay_at, time_to};

use crate::gate_list::{Entry, MAX_ENTRIES, Stay, is_open};
use wire_time::CLASSES;

/// When the slots of a cycle begin, and which of them closes a class next. Times are in picoseconds.
#[derive(Clone, Debug, Drop)]
pub(crate) struct Table {
    /// How many slots there are: that many entries are shown.
    shown: usize,
    /// How long the slots last together.
    cycle: u64,
    /// The classes that every slot opens.
    always: u8,
    /// When each slot begins, from the start of the cycle.
    starts: [u64; MAX_ENTRIES],
    /// By slot and by class, the first slot from there on that closes the class; past the last slot the first one comes
    /// again.
    closing: [u8; PLACES],
}

/// How many places the rows of all slots take, and the row after them, in which the first slot comes again.
const PLACES: usize = CLASSES * (MAX_ENTRIES + 1);

/// How long an entry lasts, in picoseconds.
#[inline(always)]
fn span_of(entry: &Entry) -> u64
    ensures span { result ≡ in_ps entry.now.interval }
    ensures bound { result < 2 ^ 42 }
{
    1000 * u64::from(entry.interval)
}

/// When each slot of a cycle of so many picoseconds begins, from the start of the first, is written; the answer is how
/// many slots there are.
fn put_starts(entries: &[Entry], cycle: u64, starts: &mut [u64; MAX_ENTRIES]) -> usize
    requires few { length entries.now ≤ MAX_ENTRIES }
    requires fits { cycle ≤ in_ps MAX_CYCLE_NS }
    ensures shown { result ≡ length (slots entries.now cycle) }
    ensures within { result ≤ length entries.now }
    ensures starts { AreStarts (slots entries.now cycle) starts.new }
{
    let mut start = 0;
    for (i, entry) in entries.iter().enumerate() {
        starts[i] = start;
        let end = start + span_of(entry);
        if cycle <= end {
            return i + 1;
        }
        start = end;
    }
    entries.len()
}

/// The bit of each class in a mask.
fn class_bits() -> [u8; CLASSES]
    ensures { AreBits result }
{
    let mut bits = [1; CLASSES];
    for class in 1..CLASSES {
        bits[class] = 1 << class;
    }
    bits
}

/// The classes that all entries open, and of how many entries in front this is known.
fn common_mask(entries: &[Entry]) -> (u8, usize)
    requires few { length entries.now ≤ MAX_ENTRIES }
    ensures within { result.1 ≤ length entries.now }
    ensures open { (class : ℕ) → class < CLASSES →
        opens result.0 class ≡ all_open (take result.1 entries.now) class }
    ensures known { result.1 < length entries.now → result.0 ≡ 0 }
{
    let mut open = 255;
    let mut count = 0;
    while count < entries.len() && open != 0 {
        open &= entries[count].mask;
        count += 1;
    }
    (open, count)
}

/// One of two octets, with no branch.
#[inline(always)]
fn one_of(first: bool, here: u8, there: u8) -> u8
    ensures { result ≡ (if first then here else there) }
{
    let kept: u8 = if first { 255 } else { 0 };
    (here & kept) | (there & !kept)
}

/// What closes each class from a slot on.
#[inline(always)]
fn row_at(rows: &[u8; PLACES], slot: usize) -> [u8; CLASSES]
    requires few { slot ≤ MAX_ENTRIES }
    ensures { IsRow rows.now slot result }
{
    let mut row = [0; CLASSES];
    for class in 0..CLASSES {
        row[class] = rows[CLASSES * slot + class];
    }
    row
}

/// What closes each class from a slot of this mask on is written, and takes the place of the row after it: one row
/// waits for the other there, and not in memory.
#[inline(always)]
fn put_row(
    slot: usize,
    mask: u8,
    bits: &[u8; CLASSES],
    row: &mut [u8; CLASSES],
    rows: &mut [u8; PLACES],
)
    requires few { slot < MAX_ENTRIES }
    requires bits { AreBits bits.now }
    requires after { IsRow rows.old (slot + 1) row.old }
    ensures kept { IsRow rows.new slot row.new }
    ensures row { (class : ℕ) → class < CLASSES →
        closing_at rows.new slot class
        ≡ (if opens mask class then closing_at rows.old (slot + 1) class else slot) }
    ensures others { (i class : ℕ) → class < CLASSES → i ≢ slot →
        closing_at rows.new i class ≡ closing_at rows.old i class }
{
    for class in 0..CLASSES {
        let is_open = mask & bits[class] != 0;
        let closing = one_of(is_open, row[class], slot as u8);
        row[class] = closing;
        rows[CLASSES * slot + class] = closing;
    }
}

/// The rows of the slots of some entries, by the row after them, are written. Apart, and by a copy of the bits, so that
/// the compiler takes all classes at once.
#[inline(never)]
fn put_rows(entries: &[Entry], bits: &[u8; CLASSES], rows: &mut [u8; PLACES])
    requires few { length entries.now ≤ MAX_ENTRIES }
    requires bits { AreBits bits.now }
    ensures rows { (class i : ℕ) → class < CLASSES → i ≤ length entries.now →
        closing_at rows.new i class
        ≡ next_shut (drop i entries.now) class i (closing_at rows.old (length entries.now) class) }
{
    let bits = [
        bits[0], bits[1], bits[2], bits[3], bits[4], bits[5], bits[6], bits[7],
    ];
    let mut left = entries.len();
    let mut row = row_at(rows, left);
    while left > 0 {
        left -= 1;
        put_row(left, entries[left].mask, &bits, &mut row, rows);
    }
}

/// The table of one slot of a nanosecond, which closes all classes.
pub(crate) fn closed_table() -> Table
    ensures stays { HasStays (slots closed_entries (in_ps 1)) result }
    ensures within { IsWithin result }
{
    Table {
        shown: 1,
        cycle: 1000,
        always: 0,
        starts: [0; MAX_ENTRIES],
        closing: [0; PLACES],
    }
}

/// The row after the slots is written: it is that of the first slot.
#[inline(always)]
fn put_first(slot: usize, rows: &mut [u8; PLACES])
    requires few { slot ≤ MAX_ENTRIES }
    ensures { (class : ℕ) → class < CLASSES →
        closing_at rows.new slot class ≡ closing_at rows.old 0 class }
{
    for class in 0..CLASSES {
        rows[CLASSES * slot + class] = rows[class];
    }
}

/// The rows of all slots of a cycle, with the row after them, are written; the answer is the classes that all slots
/// open.
fn put_closing(entries: &[Entry], rows: &mut [u8; PLACES]) -> u8
    requires few { length entries.now ≤ MAX_ENTRIES }
    ensures all { (class : ℕ) → class < CLASSES → opens result class ≡ all_open entries.now class }
    ensures rows { (class : ℕ) → class < CLASSES → opens result class ≡ false →
        GoesRound entries.now class rows.new }
{
    let bits = class_bits();
    let (always, count) = common_mask(entries);
    put_rows(&entries[..count], &bits, rows);
    put_first(entries.len(), rows);
    put_rows(entries, &bits, rows);
    always
}

/// The table of a list whose cycle takes so many nanoseconds is written where it is kept.
pub(crate) fn put_table(entries: &[Entry], cycle_ns: u64, table: &mut Table)
    requires few { length entries.now ≤ MAX_ENTRIES }
    requires fits { cycle_ns ≤ MAX_CYCLE_NS }
    ensures stays { HasStays (slots entries.now (in_ps cycle_ns)) table.new }
    ensures within { IsWithin table.new }
{
    let cycle = 1000 * cycle_ns;
    let shown = put_starts(entries, cycle, &mut table.starts);
    table.shown = shown;
    table.cycle = cycle;
    table.always = put_closing(&entries[..shown], &mut table.closing);
}

/// So many starts are written where others are kept.
#[inline(always)]
fn copy_starts(from: &[u64; MAX_ENTRIES], count: usize, starts: &mut [u64; MAX_ENTRIES])
    requires { count ≤ MAX_ENTRIES }
    ensures { take count starts.new ≡ take count from.now }
{
    starts[..count].copy_from_slice(&from[..count]);
}

/// So many places of rows are written where others are kept.
#[inline(always)]
fn copy_places(from: &[u8; PLACES], count: usize, rows: &mut [u8; PLACES])
    requires { count ≤ PLACES }
    ensures { take count rows.new ≡ take count from.now }
{
    rows[..count].copy_from_slice(&from[..count]);
}

/// What a table says is written where another one is kept: of its places those that it uses.
pub(crate) fn copy_table(from: &Table, table: &mut Table)
    requires { IsWithin from.now }
    ensures stays { (class i : ℕ) → class < CLASSES →
        stay_at table.new class i ≡ stay_at from.now class i }
    ensures within { IsWithin table.new }
{
    table.shown = from.shown;
    table.cycle = from.cycle;
    table.always = from.always;
    copy_starts(&from.starts, from.shown, &mut table.starts);
    copy_places(&from.closing, CLASSES * from.shown, &mut table.closing);
}

/// For how long a class is open from the start of a slot to that of the one that closes it, in picoseconds.
fn time_to(table: &Table, i: usize, closing: usize) -> u128
    requires from { i < MAX_ENTRIES }
    requires to { closing < MAX_ENTRIES }
    ensures { result ≡ time_to table.now.cycle table.now.starts i closing }
{
    let start = table.starts[i];
    let end = table.starts[closing];
    if closing < i {
        u128::from(table.cycle.saturating_sub(start)) + u128::from(end)
    } else {
        u128::from(end.saturating_sub(start))
    }
}

/// What the table has for a class at an entry.
pub(crate) fn stay_at(table: &Table, class: usize, i: usize) -> Stay
    requires low { class < CLASSES }
    requires within { i < MAX_ENTRIES }
    ensures { result ≡ stay_at table.now class i }
{
    if i >= table.shown {
        Stay::Lasts(0)
    } else if is_open(table.always, class as u8) {
        Stay::Always
    } else {
        Stay::Lasts(time_to(table, i, usize::from(table.closing[CLASSES * i + class])))
    }
}

/// What the table has for each class at an entry.
pub(crate) fn stays_at(table: &Table, i: usize) -> [Stay; CLASSES]
    requires { i < MAX_ENTRIES }
    ensures { (class : ℕ) → class < CLASSES →
        slice_get result class ≡ Some (stay_at table.now class i) }
{
    let mut stays = [Stay::Always; CLASSES];
    for class in 0..CLASSES {
        stays[class] = stay_at(table, class, i);
    }
    stays
}
