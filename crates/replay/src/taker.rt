//! Who takes what a script and a capture ask.

ghost use Rattle.std.specs.Prelude.{◌≡◌, ◌≤◌, ◌++◌, ◌∷◌, [], ℕ, List, OnOk, Result, length};
ghost use Rattle.abstract_port.specs.declared.Event.TheVariants as Events;
ghost use Rattle.replay.specs.Taker.{Takes};
ghost use Rattle.replay.specs.Words.{Asks, CAPTURE_END, Command, Entry, IsKept, IsReader, MAX_RECORD_OCTETS, Request, Stop, TcFault, entry, frame_of, kept, kept_in, kept_request};
ghost use Rattle.replay.specs.declared.faults.Stop.TheVariants as Stops;

use crate::faults::Stop;
use crate::kept_script::KeptLine;
use capture::Record;
use script::Watch;

/// Who takes what a script and a capture ask, one request after another, and makes of it what a job is for: the port is
/// its own. What is made may be written to `out`; who watches is called for what it is to know. A fault ends the run.
pub trait Taker<W, H: Watch> {
    /// Requests can be taken.
    ghost ready: { Self → Type 0 };

    /// From one value, output and watcher to others these requests were taken in whole, beside these records.
    ghost took: { List Entry → List Request → Self → W → H → Self → W → H → Type 0 };

    /// From one value, output and watcher to others a front of them was taken, and then a call stopped.
    ghost cut: { List Entry → List Request → Stop → Self → W → H → Self → W → H → Type 0 };

    /// Takes a line of a kept script, whose octets these are.
    fn take_line(
        &mut self,
        octets: &[u8],
        line: KeptLine,
        out: &mut W,
        watch: &mut H,
    ) -> Result<(), Stop>
        requires ready { ready self.old }
        requires kept { IsKept octets.now line }
        ensures ready { OnOk result (ready self.new) }
        ensures taken { (read : List (List ℕ) → Result Command TcFault) → IsReader read →
            (entries : List Entry) →
            Takes took cut entries (kept_request read octets.now line ∷ []) result
            self.old out.old watch.old self.new out.new watch.new };

    /// Takes the record of a number, from 0: a clock event at this moment, in picoseconds, and the arrival of its frame.
    fn take_record(
        &mut self,
        moment: u128,
        number: u32,
        record: &Record<'_>,
        out: &mut W,
        watch: &mut H,
    ) -> Result<(), Stop>
        requires ready { ready self.old }
        requires moment { moment ≤ CAPTURE_END }
        requires size { length record.now.octets.now ≤ MAX_RECORD_OCTETS }
        ensures ready { OnOk result (ready self.new) }
        ensures taken { (entries : List Entry) →
            kept_in entries number ≡ kept record.now.original record.now.octets.now →
            Takes took cut entries
            (Asks (Events.Clock moment) ∷ Asks
            (Events.Arrive (frame_of (entry record.now) number)) ∷ []) result
            self.old out.old watch.old self.new out.new watch.new };

    /// More of the capture is waited for: what was written is let out.
    fn let_out(&mut self, out: &mut W, watch: &mut H) -> Result<(), Stop>
        requires ready { ready self.old }
        ensures ready { OnOk result (ready self.new) }
        ensures taken { (entries : List Entry) →
            Takes took cut entries [] result
            self.old out.old watch.old self.new out.new watch.new };

    ghost nothing: { (es : List Entry) (s : Self) (w : W) (h : H) → took es [] s w h s w h };

    ghost both: { (es : List Entry) (xs ys : List Request) (s t u : Self) (w v x : W) (h k l : H)
        → took es xs s w h t v k → took es ys t v k u x l → took es (xs ++ ys) s w h u x l };

    ghost cut_later: { (es : List Entry) (xs ys : List Request) (stop : Stop) (s t u : Self)
        (w v x : W) (h k l : H) → took es xs s w h t v k → cut es ys stop t v k u x l
        → cut es (xs ++ ys) stop s w h u x l };

    ghost cut_sooner: { (es : List Entry) (xs ys : List Request) (stop : Stop) (s t : Self)
        (w v : W) (h k : H) → cut es xs stop s w h t v k → cut es (xs ++ ys) stop s w h t v k };

    /// A read failed.
    ghost cut_unread: { (es : List Entry) (xs ys : List Request) (s t : Self) (w v : W) (h k : H)
        → took es xs s w h t v k → cut es (xs ++ ys) Stops.Read s w h t v k };

    /// Who watches was told of nothing that counts.
    ghost untold: { (es : List Entry) (s : Self) (w : W) (h k : H) → H.alerted [] h k
        → took es [] s w h s w k };
}
