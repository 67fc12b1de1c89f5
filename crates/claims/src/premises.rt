//! The premises of the laws, met by values that calls make: each function takes or makes such a value, and its contract
//! is what the laws say of it.
ghost use Rattle.std.specs.Prelude.{◌≡◌, ℕ, ◌+◌, ◌<◌, ◌≤◌, ◌++◌, ◌∷◌, [], List, Some, OnOk, All, ◌^◌, IfOk, IfErr, sum_by};
ghost use Rattle.wire_time.specs.Moment.{greatest_moment, greatest_lead};
ghost use Rattle.wire_time.specs.Wire.{sdu_of};
ghost use Rattle.wire_time.specs.declared.Frame.{Frame};
ghost use Rattle.gates.specs.ListLaws.{PhaseLaw, ChangeLaw, ApartLaw};
ghost use Rattle.gates.specs.Stay.{StayLaw};
ghost use Rattle.abstract_port.specs.Sound.{FitsLead};
ghost use Rattle.gates.specs.Current.{accepted_at, answer_to, with_command};
ghost use Rattle.gates.specs.History.{gates, open_through};
ghost use Rattle.gates.specs.HistoryLaws.{KeptLaw, AppendLaw, StretchLaw};
ghost use Rattle.abstract_port.specs.declared.Event.{Event};
ghost use Rattle.abstract_port.specs.AbstractPort.{new_port, counts_at};
ghost use Rattle.abstract_port.specs.Answers.{port_after};
ghost use Rattle.abstract_port.specs.FrameCounts.{add_capped};
ghost use Rattle.abstract_port.specs.Tally.{Counter, value_of, growth, happenings};
ghost use Rattle.abstract_port.specs.Hindsight.{IsOpenInHindsight};
ghost use Rattle.abstract_port.specs.Settled.{IsSettledRun};

use abstract_port::laws::counting_law;
use abstract_port::separation::{hindsight, settling};
use gates::gate_list::laws::{apart_law, change_law, phase_law, stay_law};
use gates::gate_list::{Schedule, Visits};
use gates::list_config::laws::{append_law, further_law, hindsight_law, kept_law, stretch_law};
use gates::list_config::{Gates, NotNow};
use jumping::stepped::Stepped;
use port::{Port, PortFault};
use std::alloc::{Allocator, Global};
use wire_time::{CLASSES, Rate, lead_law};

pub mod apart;
pub mod bounds;
pub mod laws;
pub mod scripts;

/// The masks of a schedule have eight bits.
fn masks_of(schedule: &Schedule)
    ensures { All (λ e. e.mask < 2 ^ CLASSES) schedule.now.entries }
{
    let mut visits = Visits::zero();
    for i in 0..schedule.len() {
        let _ = schedule.entry(i, &mut visits);
    }
}

/// What a schedule shows, when it comes into force, how long its gates stay open, and whether it keeps a class apart.
pub fn schedules(schedule: &Schedule, class: u8)
    requires { class < CLASSES }
    ensures phase { PhaseLaw schedule.now.entries }
    ensures change { (e : ℕ) → ChangeLaw schedule.now e }
    ensures stay { StayLaw schedule.now }
    ensures apart { ApartLaw schedule.now.entries class }
{
    phase_law();
    change_law();
    stay_law();
    apart_law();
    masks_of(schedule);
    // For the prover: a call on a schedule says what holds of every schedule.
    let _ = schedule.len();
}

/// What gates keep may be kept again, and shows at most three stretches.
pub fn histories<G: Gates>(held: &G)
    requires { G.is_sound held.now }
    ensures kept { KeptLaw 0 (G.moment held.now) (G.history held.now) }
    ensures stretches { StretchLaw (G.moment held.now) (G.history held.now) }
{
    // For the prover: a call on a port says what holds of every port.
    let _ = held.now();
    kept_law();
    stretch_law();
}

/// A schedule that gates take may follow what they keep, and changes nothing before its lead moment.
pub fn commands<G: Gates>(held: &mut G, schedule: Schedule, lead: u128) -> Result<u128, NotNow>
    requires sound { G.is_sound held.old }
    requires ahead { G.moment held.old < lead }
    requires within { lead ≤ greatest_moment + greatest_lead }
    ensures sound { G.is_sound held.new }
    ensures moment { G.moment held.new ≡ G.moment held.old }
    ensures answer { result
        ≡ answer_to (G.history held.old) (G.moment held.old) (accepted_at lead schedule) }
    ensures history { G.history held.new
        ≡ with_command (G.history held.old) (G.moment held.old) (accepted_at lead schedule) }
    ensures appended { OnOk result
        (AppendLaw 0 (G.moment held.old) (G.history held.old) (accepted_at lead schedule)) }
    ensures hindsight { (n : ℕ) → n < lead →
        gates (G.history held.old ++ accepted_at lead schedule ∷ []) n
        ≡ gates (G.history held.old) n }
    ensures further { (class n d : ℕ) → n + d ≤ lead →
        open_through (G.history held.old ++ accepted_at lead schedule ∷ []) class n d
        ≡ open_through (G.history held.old) class n d }
{
    append_law();
    hindsight_law();
    further_law();
    // For the prover: a call on a schedule says what holds of every schedule.
    let _ = schedule.len();
    let _ = schedule.change_moment(lead);
    held.install(&schedule, lead)
}

/// No frame that a port accepts outlasts the lead; every run of it is open in hindsight, and settles.
pub fn runs<G: Gates, A: Allocator>(port: &Port<G, A>)
    ensures lead { (f : Frame) (sdu : ℕ) → sdu_of f ≡ Some sdu → sdu ≤ port.now.port.mtu →
        FitsLead port.now.port.ps port.now.port.mtu f }
    ensures hindsight { (events : List Event) → IsOpenInHindsight port.now.port events }
    ensures settling { (events : List Event) → IsSettledRun port.now.port events }
{
    // For the prover: a call on a port says what holds of every port.
    let _ = port.now();
    lead_law();
    hindsight();
    settling();
}

/// A new port of this rate, an mtu of 1500 octets and room for 128 frames a class. In all its runs each counter of a
/// class is the count over the answers, at most the greatest u64.
pub fn counted(alloc: Global, rate: Rate) -> Result<Port<Stepped>, PortFault>
    ensures port { IfOk result (λ p. p.port ≡ new_port rate 1500 128) }
    ensures refused { IfErr result (λ fault. fault ≡ PortFault.Memory) }
    ensures counts { (counter : Counter) (class : ℕ) (events : List Event) → class < CLASSES →
        value_of counter (counts_at (port_after events (new_port rate 1500 128)) class)
        ≡ add_capped 0
        (sum_by (growth counter class) (happenings events (new_port rate 1500 128))) }
{
    counting_law();
    Port::new(alloc, rate, 1500, 128)
}
