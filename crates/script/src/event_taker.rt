//! Who takes what a script asks.

ghost use Rattle.std.specs.Prelude.{◌≡◌, ◌++◌, ◌∷◌, [], ℕ, List, Result, false, true};
ghost use Rattle.job.specs.declared.halt.Halt.{Halt};
ghost use Rattle.script.specs.Walked.{Takes};
ghost use Rattle.script.specs.Words.{Asks, Command, IsReader, Request, TcFault, tc_request, words_of};

use crate::watch::Watch;
use abstract_port::Event;
use job::Halt;
use port_text::tc_reader::CommandPlace;

/// Who takes what a script asks, one request after another, and makes of it what a job is for: the port is its own.
/// What is made may be written to `out`; who watches is called for what it is to know. A fault ends the run.
pub trait EventTaker<W, H: Watch> {
    /// From one value, output and watcher to others these requests were taken in whole.
    ghost took: { List Request → Self → W → H → Self → W → H → Type 0 };

    /// From one value, output and watcher to others a front of them was taken, and then a call couldn't go on.
    ghost cut: { List Request → Halt → Self → W → H → Self → W → H → Type 0 };

    /// Takes an event.
    fn take_event(&mut self, event: &Event<'_>, out: &mut W, watch: &mut H) -> Result<(), Halt>
        ensures { Takes took cut (Asks event.now ∷ []) result
            self.old out.old watch.old self.new out.new watch.new };

    /// Takes the line of this number, which begins with `tc`: gives its command to the port, or knows that it is none. The
    /// command may be read into a place that is kept from line to line.
    fn take_tc(
        &mut self,
        place: &mut CommandPlace,
        number: u32,
        line: &[u8],
        out: &mut W,
        watch: &mut H,
    ) -> Result<(), Halt>
        ensures { (read : List (List ℕ) → Result Command TcFault) → IsReader read →
            Takes took cut (tc_request (read (words_of line.now)) ∷ []) result
            self.old out.old watch.old self.new out.new watch.new };

    /// Takes a clock event where it is known at once that nothing starts before its moment, and answers whether. Else
    /// nothing changes.
    fn rests(&mut self, event: &Event<'_>) -> bool
        ensures rests { (w : W) (h : H) → result ≡ true →
            took (Asks event.now ∷ []) self.old w h self.new w h }
        ensures kept { result ≡ false → self.new ≡ self.old };

    /// More input is waited for: what was written may be let out.
    fn waits(&mut self, out: &mut W) -> Result<(), Halt>
        ensures { (h : H) → Takes took cut [] result self.old out.old h self.new out.new h };

    ghost nothing: { (s : Self) (w : W) (h : H) → took [] s w h s w h };

    ghost both: { (xs ys : List Request) (s t u : Self) (w v x : W) (h k l : H)
        → took xs s w h t v k → took ys t v k u x l → took (xs ++ ys) s w h u x l };

    ghost cut_later: { (xs ys : List Request) (halt : Halt) (s t u : Self) (w v x : W) (h k l : H)
        → took xs s w h t v k → cut ys halt t v k u x l → cut (xs ++ ys) halt s w h u x l };

    /// Who watches was told of nothing that counts.
    ghost untold: { (s : Self) (w : W) (h k : H) → H.alerted [] h k → took [] s w h s w k };
}
