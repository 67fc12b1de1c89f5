//! The bands of one class.

ghost use Rattle.std.specs.Prelude.{◌≡◌, ◌≤◌, ◌<◌, length};
ghost use Rattle.picture.specs.Words.{greatest_moment, MOST_SHAPES, no_bands};

use crate::lane::Lane;
use crate::span::{Shape, Span};
use abstract_port::per_class::PerClass;
use gates::gate_list::is_open;
use std::alloc::{AllocError, Allocator, Global};
use std::marker::Model;
use wire_time::CLASSES;

/// Since when a class has been open, in picoseconds, where it is, and the bands that are complete.
#[derive(Drop)]
pub(crate) struct ClassBands<A: Allocator = Global> {
    since: Option<u128>,
    lane: Lane<A>,
}

/// A contract sees both.
impl<A: Allocator> Model for ClassBands<A> {
    ghost use Rattle.std.specs.Prelude.{◌≤◌};
    ghost use Rattle.std.specs.Option.{ForSome};
    ghost use Rattle.wire_time.specs.Moment.{greatest_moment};
    ghost use Rattle.picture.specs.Drawn.{ClassLane};

    ghost Value = { ClassLane };

    ghost view = { λ c. record { since = c.since; lane = c.lane } };

    ghost invariant = { λ c. ForSome c.since (λ m. m ≤ greatest_moment) };
}

impl<A: Allocator + Clone> PerClass<A> for ClassBands<A> {
    type Fault = AllocError;

    ghost made = { λ _. no_bands };

    /// No bands yet, and the room for all that a lane ever has: `MOST_SHAPES`.
    fn make(alloc: &A, _room: usize) -> Result<ClassBands<A>, AllocError> {
        let lane = Lane::new(alloc.clone()?)?;
        Ok(ClassBands { since: None, lane })
    }
}

impl<A: Allocator> ClassBands<A> {
    ghost use Rattle.picture.specs.Drawn.{stepped};

    /// At a moment, in picoseconds, the class is open or closed.
    pub(crate) fn step(&mut self, is_open: bool, moment: u128)
        requires { moment ≤ greatest_moment }
        ensures { self.new ≡ stepped is_open moment self.old }
    {
        if is_open {
            self.since = Some(self.since.unwrap_or(moment));
            return;
        }
        match self.since {
            None => {}
            Some(from) => {
                self.since = None;
                self.lane.push_band(Shape {
                    span: Span { from, to: moment },
                    id: Some(0),
                });
            }
        }
    }

    /// No bands any more; the room stays.
    pub(crate) fn clear(&mut self)
        ensures { self.new ≡ no_bands }
    {
        self.since = None;
        self.lane.clear();
    }

    /// The bands that are complete.
    pub(crate) fn shapes(&self) -> &[Shape]
        ensures value { result.now ≡ self.now.lane.shapes }
        ensures few { length result.now ≤ MOST_SHAPES }
    {
        self.lane.shapes()
    }
}
