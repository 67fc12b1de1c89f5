//! A run that is drawn, and takes what a script asks.

ghost use Rattle.std.specs.Prelude.{◌≡◌, IfOk};
ghost use Rattle.drawing.specs.Words.{IsSoundPort, first_place, drawn_place};

use crate::course::Course;
use crate::draw_run::{first_course, follow, take_asked, take_tc};
use crate::options::DrawOptions;
use crate::scope::Scope;
use abstract_port::Event;
use job::Halt;
use picture::Bands;
use port_text::tc_reader::CommandPlace;
use script::{EventTaker, RunningPort, Settings, Watch, rests};
use std::alloc::{AllocError, Global};

/// A port that runs, what is drawn of it so far, and its bands; and by what it is drawn.
#[derive(Drop)]
pub(crate) struct Drawn {
    /// The port.
    pub port: RunningPort<Global>,
    /// What is drawn of it so far.
    pub course: Course<Global>,
    /// Its bands.
    pub bands: Bands<Global>,
    /// The settings of the run.
    pub settings: Settings,
    /// The options of the picture.
    pub options: DrawOptions,
}

/// Nothing is drawn yet of a new port.
pub(crate) fn new_drawn(
    alloc: &Global,
    settings: Settings,
    options: DrawOptions,
) -> Result<Drawn, AllocError>
    ensures place { IfOk result (λ d. drawn_place d ≡ first_place settings options) }
    ensures settings { IfOk result (λ d. d.settings ≡ settings) }
    ensures options { IfOk result (λ d. d.options ≡ options) }
    ensures sound { IfOk result (λ d. IsSoundPort d.port.port) }
{
    let rate = settings.rate();
    // For the prover: the getter says within which limits a rate lies.
    let _ps = rate.ps_per_octet();
    let mtu = settings.mtu();
    let own = alloc.clone()?;
    let Ok(port) = RunningPort::new(own, rate, mtu, settings.room()) else {
        return Err(AllocError);
    };
    // For the prover: a call on a port says what holds of every port.
    let _now = port.now();
    let course = first_course(alloc, settings, options)?;
    let view = options.view(Scope::Nothing);
    let bands = Bands::new(alloc, view.from, view.to)?;
    Ok(Drawn {
        port,
        course,
        bands,
        settings,
        options,
    })
}

impl<W, H: Watch> EventTaker<W, H> for Drawn {
    ghost use Rattle.drawing.specs.Walk.{Draws, draws_both, draws_none};

    ghost took = { λ rs s w h t v k. Draws rs s t };

    ghost cut = { λ rs halt s w h t v k. ⊥ };

    fn take_event(&mut self, event: &Event<'_>, _out: &mut W, _watch: &mut H) -> Result<(), Halt> {
        take_asked(
            &mut self.port,
            &mut self.bands,
            &mut self.course,
            event,
            self.settings,
            self.options,
        );
        Ok(())
    }

    fn take_tc(
        &mut self,
        place: &mut CommandPlace,
        number: u32,
        line: &[u8],
        _out: &mut W,
        watch: &mut H,
    ) -> Result<(), Halt> {
        take_tc(
            place,
            &mut self.port,
            &mut self.bands,
            &mut self.course,
            number,
            line,
            self.settings,
            watch,
        );
        Ok(())
    }

    fn rests(&mut self, event: &Event<'_>) -> bool {
        if !rests(&mut self.port, event) {
            return false;
        }
        let view = self.options.view(self.course.scope());
        follow(&self.port, &mut self.bands, view);
        true
    }

    fn waits(&mut self, _out: &mut W) -> Result<(), Halt> {
        Ok(())
    }

    ghost nothing = { λ s w h. draws_none s };

    ghost both = { λ xs ys s t u w v x h k l. draws_both xs ys s t u };

    ghost cut_later = { λ xs ys halt s t u w v x h k l taken stopped. stopped };

    ghost untold = { λ s w h k told. draws_none s };
}
