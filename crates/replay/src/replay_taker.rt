//! A replay that runs takes what its script and its capture ask.

ghost use Rattle.std.specs.Prelude.{◌≡◌, ◌≤◌, ◌∷◌, [], ℕ, IfErr, List, None, OnOk, Result, length};
ghost use Rattle.std.specs.Io.KnownBytes.{Keeps as Holds};
ghost use Rattle.abstract_port.specs.declared.Event.TheVariants as Events;
ghost use Rattle.replay.specs.Words.{Answers, Asks, CAPTURE_END, Command, IsKept, IsReader, IsTogether, Keeps, MAX_RECORD_OCTETS, Origin, TcFault, entry, frame_of, kept, kept_in, kept_request, state_of};
ghost use Rattle.replay.specs.declared.faults.Stop.TheVariants as Stops;

use crate::faults::Stop;
use crate::kept_script::KeptLine;
use crate::outputs::Outputs;
use crate::sender::{Sending, put_arrival, put_clock};
use crate::taker::Taker;
use abstract_port::Event;
use capture::{Record, frame_of};
use port_text::tc_reader::CommandPlace;
use port_text::tc_reader::laws::one_reader;
use script::{Watch, put_answers, put_tc};
use std::alloc::Allocator;
use std::io::Write;
use text::octet_writer::PutLine;

/// Answers a line of the script. Who watches is called where it begins with `tc` and changes nothing.
#[inline(never)]
fn put_line<A: Allocator, V: PutLine, W: PutLine, P: Watch>(
    sending: &mut Sending<A>,
    octets: &[u8],
    line: KeptLine,
    outputs: &mut Outputs<V, W>,
    watch: &mut P,
) -> Result<(), Stop>
    requires kept { IsKept octets.now line }
    requires together { IsTogether (state_of V.contents W.contents sending.old outputs.old) }
    ensures together { OnOk result
        (IsTogether (state_of V.contents W.contents sending.new outputs.new)) }
    ensures answers { (read : List (List ℕ) → Result Command TcFault) → IsReader read →
        (origin : Origin) →
        Keeps origin (state_of V.contents W.contents sending.old outputs.old) →
        Answers origin result (kept_request read octets.now line ∷ [])
        (state_of V.contents W.contents sending.old outputs.old)
        (state_of V.contents W.contents sending.new outputs.new) }
{
    one_reader();
    match line {
        KeptLine::Clock(moment) => {
            return put_clock(
                sending,
                moment,
                &mut outputs.departures,
                &mut outputs.report,
            );
        }
        KeptLine::Query => put_answers(
            &mut sending.leaving.moments,
            &mut sending.port,
            &mut sending.summary,
            &Event::Query,
            &mut outputs.report,
            watch,
        )?,
        KeptLine::Count(class) => put_answers(
            &mut sending.leaving.moments,
            &mut sending.port,
            &mut sending.summary,
            &Event::Count(class),
            &mut outputs.report,
            watch,
        )?,
        KeptLine::Tc { start, end, number } => put_tc(
            &mut CommandPlace::new(),
            &mut sending.port,
            &mut sending.summary,
            number,
            &octets[start..end],
            &mut outputs.report,
            watch,
        )?,
    }
    Ok(())
}

/// Takes a record: a clock event at this moment, and the arrival of its frame. Who watches is called where it is dropped.
#[inline(always)]
fn put_record<A: Allocator + Clone, V: PutLine, W: PutLine, P: Watch>(
    sending: &mut Sending<A>,
    moment: u128,
    number: u32,
    record: &Record<'_>,
    outputs: &mut Outputs<V, W>,
    watch: &mut P,
) -> Result<(), Stop>
    requires moment { moment ≤ CAPTURE_END }
    requires size { length record.now.octets.now ≤ MAX_RECORD_OCTETS }
    requires together { IsTogether (state_of V.contents W.contents sending.old outputs.old) }
    ensures together { OnOk result
        (IsTogether (state_of V.contents W.contents sending.new outputs.new)) }
    ensures answers { (origin : Origin) →
        kept_in origin.entries number ≡ kept record.now.original record.now.octets.now →
        Keeps origin (state_of V.contents W.contents sending.old outputs.old) →
        Answers origin result
        (Asks (Events.Clock moment) ∷ Asks
        (Events.Arrive (frame_of (entry record.now) number)) ∷ [])
        (state_of V.contents W.contents sending.old outputs.old)
        (state_of V.contents W.contents sending.new outputs.new) }
{
    put_clock(
        sending,
        moment,
        &mut outputs.departures,
        &mut outputs.report,
    )?;
    let frame = frame_of(record, u64::from(number));
    put_arrival(
        sending,
        frame,
        record.original,
        record.octets,
        &mut outputs.report,
        watch,
    )
}

/// Lets out what was written: the departures first, so that the record of a start that is reported can be read.
fn flush_both<V: Write, W: Write>(outputs: &mut Outputs<V, W>) -> Result<(), Stop>
    ensures report { Holds (V.contents outputs.old.report) (V.contents outputs.new.report) }
    ensures departures { Holds (W.contents outputs.old.departures)
        (W.contents outputs.new.departures) }
    ensures fault { IfErr result (λ fault. fault ≡ Stops.Write) }
{
    if outputs.departures.flush().is_err() || outputs.report.flush().is_err() {
        return Err(Stop::Write);
    }
    Ok(())
}

impl<A: Allocator + Clone, V: PutLine, W: PutLine, P: Watch> Taker<Outputs<V, W>, P>
    for Sending<A> {
    ghost use Rattle.replay.specs.RunState.{IsTogether, state, state_of};
    ghost use Rattle.replay.specs.Beside.{AnsweredBeside, StoppedBeside, beside_both, beside_later, beside_none, beside_sooner, beside_unread};
    ghost use Rattle.std.specs.Prelude.{None};

    ghost ready = { λ s. IsTogether (state s None None) };

    ghost took = { λ entries requests s w h t v k. AnsweredBeside entries requests
        (state_of V.contents W.contents s w) (state_of V.contents W.contents t v) };

    ghost cut = { λ entries requests stop s w h t v k. StoppedBeside entries requests stop
        (state_of V.contents W.contents s w) (state_of V.contents W.contents t v) };

    #[inline(always)]
    fn take_line(
        &mut self,
        octets: &[u8],
        line: KeptLine,
        out: &mut Outputs<V, W>,
        watch: &mut P,
    ) -> Result<(), Stop> {
        put_line(self, octets, line, out, watch)?;
        Ok(())
    }

    #[inline(always)]
    fn take_record(
        &mut self,
        moment: u128,
        number: u32,
        record: &Record<'_>,
        out: &mut Outputs<V, W>,
        watch: &mut P,
    ) -> Result<(), Stop> {
        put_record(self, moment, number, record, out, watch)?;
        Ok(())
    }

    fn let_out(&mut self, out: &mut Outputs<V, W>, _watch: &mut P) -> Result<(), Stop> {
        flush_both(out)?;
        Ok(())
    }

    ghost nothing = { λ es s w h. beside_none es (state_of V.contents W.contents s w) };

    ghost both = { λ es xs ys s t u w v x h k l. beside_both es xs ys
        (state_of V.contents W.contents s w) (state_of V.contents W.contents t v)
        (state_of V.contents W.contents u x) };

    ghost cut_later = { λ es xs ys stop s t u w v x h k l. beside_later es xs ys stop
        (state_of V.contents W.contents s w) (state_of V.contents W.contents t v)
        (state_of V.contents W.contents u x) };

    ghost cut_sooner = { λ es xs ys stop s t w v h k. beside_sooner es xs ys stop
        (state_of V.contents W.contents s w) (state_of V.contents W.contents t v) };

    ghost cut_unread = { λ es xs ys s t w v h k. beside_unread es xs ys
        (state_of V.contents W.contents s w) (state_of V.contents W.contents t v) };

    ghost untold = { λ es s w h k told. beside_none es (state_of V.contents W.contents s w) };
}
