//! Draws the run of a script as an SVG picture: a lane for each class with its open time, its frames and how long they
//! wait, and a lane for the wire.
//!
//! What is drawn is defined in specs/Course.antt and specs/Taken.antt, and the time that it covers in specs/Scope.antt;
//! `take` promises it of the drawn run. Beside a capture a run is drawn of both by moment, as specs/OfCapture.antt
//! defines it. The SVG text is defined in specs/Marks.antt, specs/Axis.antt and specs/Picture.antt, and how a run ends
//! in specs/PictureEnd.antt.
#![tactic(auto)]

mod arrivals;
mod capture_run;
mod course;
mod draw_job;
mod draw_run;
mod drawn;
pub mod laws;
mod marks;
mod options;
mod page;
mod scope;
mod shapes;
mod svg;
mod view;
mod view_fit;

pub use arrivals::Arrivals;
pub use capture_run::draw_capture;
pub use course::{Asked, Course};
pub use draw_job::{answer_draw, answer_draw_of_capture};
pub use draw_run::{draw, take};
pub use options::{DrawOptions, DrawValues, options_given};
pub use page::{Page, Place, lane_top};
pub use scope::Scope;
pub use shapes::Shapes;
pub use svg::put_picture;
pub use view::View;
pub use view_fit::fit;
