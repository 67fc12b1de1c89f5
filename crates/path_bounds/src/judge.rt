//! The classes of all ports, one after another.

ghost use Rattle.std.specs.Prelude.{◌≡◌, ◌<◌, ◌≤◌, ◌*◌, ◌++◌, ◌∷◌, [], All, IfErr, IfOk, None, Some, length, replicate, slice_get, slice_set};
ghost use Rattle.std.specs.List.{list_any};
ghost use Rattle.job.specs.declared.fault.Fault.TheVariants as Faults;
ghost use Rattle.path_bounds.specs.Answers.{IsJudgedAs, IsPairAnswer, IsUsed, is_cut, is_lacking, pair_of};
ghost use Rattle.path_bounds.specs.Hops.{IsHop, IsPort};
ghost use Rattle.path_bounds.specs.Judged.{AreJudged, AreLooked, IsNext, class_in, port_in, unjudged};
ghost use Rattle.path_bounds.specs.declared.judge.TheConstants.{MOST_PORTS};
ghost use Rattle.path_bounds.specs.declared.standings.PairVerdict.TheVariants as PairVerdicts;
ghost use Rattle.stream_bounds.specs.Verdicts.{unbounded};
ghost use Rattle.stream_bounds.specs.declared.verdicts.Verdict.TheVariants as Verdicts;
ghost use Rattle.wire_time.specs.declared.TheConstants.{CLASSES};

use crate::hop::{Hop, PathPort};
use crate::pass::{Passing, passed_on};
use crate::standings::{
    Pair, PairVerdict, is_lacking, is_waiting, sharing, standings_above, verdict_at,
};
use crate::tables::{has_own, own_of, table_of};
use delay_bounds::Bound;
use std::alloc::Global;
use std::marker::Model;
use stream_bounds::{
    BoundsFault, Case, ClassAnswer, Verdict, sharing_answer, unbounded, windows_answer,
};

/// The greatest number of ports.
pub const MOST_PORTS: usize = 1 << 24;

/// What is known of all streams on their ways, and the verdicts about the classes of all ports.
#[derive(Drop)]
pub struct Judgement {
    hops: Vec<Hop, Global>,
    verdicts: Vec<Option<PairVerdict>, Global>,
    order: Vec<u32, Global>,
}

/// A contract sees the three lists.
impl Model for Judgement {
    ghost use Rattle.std.specs.Prelude.{All};
    ghost use Rattle.path_bounds.specs.Hops.{IsHop};
    ghost use Rattle.path_bounds.specs.Judged.{Known};

    ghost Value = { Known };

    ghost view = { λ j.
        record { hops = j.hops.items; verdicts = j.verdicts.items; order = j.order.items } };

    ghost invariant = { λ j. All IsHop j.hops.items };
}

impl Judgement {
    /// The hops.
    pub fn hops(&self) -> &[Hop]
        ensures hops { result.now ≡ self.now.hops }
        ensures all { All IsHop result.now }
    {
        self.hops.as_slice()
    }

    /// The verdicts, eight for each port.
    pub fn verdicts(&self) -> &[Option<PairVerdict>]
        ensures { result.now ≡ self.now.verdicts }
    {
        self.verdicts.as_slice()
    }

    /// Which classes were judged, one after another: 8 for each port, from its highest one down.
    pub fn order(&self) -> &[u32]
        ensures { result.now ≡ self.now.order }
    {
        self.order.as_slice()
    }

    /// The order, with one class more.
    fn order_with(&self, alloc: Global, place: u32) -> Result<Vec<u32, Global>, BoundsFault>
        ensures order { IfOk result (λ order. order.items ≡ self.now.order ++ place ∷ []) }
        ensures memory { IfErr result (λ fault. fault ≡ Faults.Memory) }
    {
        let Ok(mut order) = self.order.as_slice().to_vec(alloc) else {
            return Err(BoundsFault::Memory);
        };
        match order.push(place) {
            Ok(()) => Ok(order),
            Err(_) => Err(BoundsFault::Memory),
        }
    }

    /// With these hops, and one verdict more.
    fn with_verdict(
        &self,
        alloc: Global,
        hops: Vec<Hop, Global>,
        place: u32,
        verdict: PairVerdict,
    ) -> Result<Judgement, BoundsFault>
        requires hops { All IsHop hops.items }
        requires place { pair_of (port_in place) (class_in place) < length self.now.verdicts }
        ensures hops { IfOk result (λ new. new.hops ≡ hops.items) }
        ensures verdicts { IfOk result (λ new. new.verdicts ≡
            slice_set self.now.verdicts (pair_of (port_in place) (class_in place)) (Some verdict)) }
        ensures order { IfOk result (λ new. new.order ≡ self.now.order ++ place ∷ []) }
        ensures memory { IfErr result (λ fault. fault ≡ Faults.Memory) }
    {
        let Ok(mut verdicts) = self.verdicts.as_slice().to_vec(alloc) else {
            return Err(BoundsFault::Memory);
        };
        let order = self.order_with(alloc, place)?;
        let at = 8 * (place / 8) + (7 - place % 8);
        verdicts[at as usize] = Some(verdict);
        Ok(Judgement {
            hops,
            verdicts,
            order,
        })
    }
}

/// The answer about a class of a port, by what is known of its streams and the classes above it.
fn pair_answer(alloc: Global, pair: Pair<'_>) -> Result<ClassAnswer, BoundsFault>
    requires class { pair.class < CLASSES }
    requires port { IsPort pair.port.now }
    requires hops { All IsHop pair.hops.now }
    ensures answer { IfOk result (λ answer. IsPairAnswer pair.entry.port.now pair.entry.number
        pair.entry.class pair.entry.hops.now pair.entry.verdicts.now pair.entry.shares.now answer) }
    ensures memory { IfErr result (λ fault. fault ≡ Faults.Memory) }
{
    let own = own_of(alloc, pair.hops, pair.number, pair.class)?;
    let own = own.as_slice();
    let PathPort {
        settings,
        change,
        schedule,
        ..
    } = pair.port;
    if own.len() == 0 {
        return Ok(unbounded(alloc, Verdict::Idle));
    }
    let table = table_of(alloc, pair.hops, pair.number)?;
    let above = standings_above(alloc, pair)?;
    let case = Case {
        settings,
        change,
        schedule,
        table: table.as_slice(),
        above: above.as_slice(),
        class: pair.class,
    };
    if schedule.keeps_apart(pair.class) {
        windows_answer(alloc, &case, own)
    } else {
        sharing_answer(alloc, &case, own)
    }
}

/// A verdict, and the answer that it stands on.
#[derive(Drop)]
struct Verdicted {
    answer: ClassAnswer,
    verdict: PairVerdict,
}

/// A class of which nothing is known.
fn unheard(alloc: Global) -> Verdicted
    ensures answer { result.answer ≡ unbounded Verdicts.Idle }
    ensures verdict { result.verdict ≡ PairVerdicts.Unheard }
{
    Verdicted {
        answer: unbounded(alloc, Verdict::Idle),
        verdict: PairVerdict::Unheard,
    }
}

/// Whether a bound is what 128 bits hold at most: so it may be cut off there.
fn is_cut(bound: Bound) -> bool
    ensures { result ≡ is_cut bound }
{
    bound.greatest == u128::MAX
}

/// Whether any bound of an answer is.
fn any_cut(answer: &ClassAnswer) -> Result<bool, BoundsFault>
    ensures cut { IfOk result (λ cut. cut ≡ list_any is_cut answer.now.left) }
    ensures memory { IfErr result (λ fault. fault ≡ Faults.Memory) }
{
    for place in 0..usize::MAX {
        let Some(bound) = answer.bound(place) else {
            return Ok(false);
        };
        if is_cut(bound) {
            return Ok(true);
        }
    }
    // (no memory holds so many)
    Err(BoundsFault::Memory)
}

/// An answer that is found, with its verdict, where none of its bounds may be cut off.
fn used(alloc: Global, found: ClassAnswer) -> Result<Verdicted, BoundsFault>
    ensures used { IfOk result
        (λ v. IsUsed (list_any is_cut found.left) found v.answer v.verdict) }
    ensures memory { IfErr result (λ fault. fault ≡ Faults.Memory) }
{
    if any_cut(&found)? {
        return Ok(unheard(alloc));
    }
    let verdict = PairVerdict::Known(found.verdict());
    Ok(Verdicted {
        answer: found,
        verdict,
    })
}

/// The answer about a class of a port, and the verdict.
fn judged(alloc: Global, pair: Pair<'_>) -> Result<Verdicted, BoundsFault>
    requires class { pair.class < CLASSES }
    requires port { IsPort pair.port.now }
    requires hops { All IsHop pair.hops.now }
    ensures judged { IfOk result (λ v. IsJudgedAs pair.entry.port.now pair.entry.number
        pair.entry.class pair.entry.hops.now pair.entry.verdicts.now pair.entry.shares.now
        (is_lacking pair.entry.port.now pair.entry.number pair.entry.class pair.entry.hops.now
        pair.entry.verdicts.now pair.entry.shares.now)
        v.answer v.verdict) }
    ensures memory { IfErr result (λ fault. fault ≡ Faults.Memory) }
{
    if is_lacking(pair) {
        return Ok(unheard(alloc));
    }
    used(alloc, pair_answer(alloc, pair)?)
}

/// The port of a number.
fn port_at(ports: &[PathPort], number: u32) -> &PathPort
    requires { number < length ports.now }
    ensures { slice_get ports.now number ≡ Some result.now }
{
    &ports[number as usize]
}

/// What is known once a class of a port is judged, if it can be.
fn step(
    alloc: Global,
    ports: &[PathPort],
    clocks: u128,
    known: &Judgement,
    place: u32,
) -> Result<Option<Judgement>, BoundsFault>
    requires ports { All IsPort ports.now }
    requires place { place < 8 * length ports.now }
    requires verdicts { length known.now.verdicts ≡ 8 * length ports.now }
    ensures next { IfOk result (IsNext ports.now clocks place known.now) }
    ensures memory { IfErr result (λ fault. fault ≡ Faults.Memory) }
{
    let number = place / 8;
    let class = (7 - place % 8) as u8;
    let port = port_at(ports, number);
    let judged_before = verdict_at(known.verdicts(), number, class).is_some();
    if judged_before || !has_own(known.hops(), number, class) {
        return Ok(None);
    }
    let pair = Pair {
        port,
        number,
        class,
        hops: known.hops(),
        verdicts: known.verdicts(),
        shares: &sharing(&port.schedule, class),
    };
    if is_waiting(pair) {
        return Ok(None);
    }
    let found = judged(alloc, pair)?;
    let passing = Passing {
        ports,
        from: port,
        clocks,
        port: number,
        class,
    };
    let hops = passed_on(alloc, passing, &found.answer, known.hops())?;
    Ok(Some(known.with_verdict(alloc, hops, place, found.verdict)?))
}

/// What is known after each class of each port has been looked at once, and whether any was judged.
fn round(
    alloc: Global,
    ports: &[PathPort],
    clocks: u128,
    known: Judgement,
) -> Result<(Judgement, bool), BoundsFault>
    requires ports { All IsPort ports.now }
    requires few { length ports.now ≤ MOST_PORTS }
    requires verdicts { length known.verdicts ≡ 8 * length ports.now }
    ensures looked { IfOk result
        (λ now. AreLooked ports.now clocks (8 * length ports.now) known now.0 now.1) }
    ensures memory { IfErr result (λ fault. fault ≡ Faults.Memory) }
{
    let mut now = known;
    let mut any = false;
    for place in 0..8 * ports.len() as u32 {
        if let Some(next) = step(alloc, ports, clocks, &now, place)? {
            now = next;
            any = true;
        }
    }
    Ok((now, any))
}

/// No verdict for any class of so many ports.
fn no_verdicts(alloc: Global, ports: usize) -> Result<Vec<Option<PairVerdict>, Global>, BoundsFault>
    requires { ports ≤ MOST_PORTS }
    ensures none { IfOk result (λ verdicts. verdicts.items ≡ replicate (8 * ports) None) }
    ensures memory { IfErr result (λ fault. fault ≡ Faults.Memory) }
{
    match vec![in alloc; None; 8 * ports] {
        Ok(verdicts) => Ok(verdicts),
        Err(_) => Err(BoundsFault::Memory),
    }
}

/// Judges the classes of all ports, one after another, by these hops: each once all is known that it depends on. What
/// is left then has no verdict: it depends on itself, in a circle, or on such a class.
pub fn judge_all(
    alloc: Global,
    ports: &[PathPort],
    clocks: u128,
    hops: Vec<Hop, Global>,
) -> Result<Judgement, BoundsFault>
    requires ports { All IsPort ports.now }
    requires few { length ports.now ≤ MOST_PORTS }
    requires hops { All IsHop hops.items }
    ensures judged { IfOk result (AreJudged ports.now clocks (unjudged ports.now hops.items)) }
    ensures memory { IfErr result (λ fault. fault ≡ Faults.Memory) }
{
    let verdicts = no_verdicts(alloc, ports.len())?;
    let mut known = Judgement {
        hops,
        verdicts,
        order: Vec::new(alloc),
    };
    loop {
        let (now, any) = round(alloc, ports, clocks, known)?;
        known = now;
        if !any {
            return Ok(known);
        }
    }
}
