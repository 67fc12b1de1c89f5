//! A picture that would show too much is made coarser.

ghost use Rattle.std.specs.Prelude.{◌≡◌, ◌<◌, ◌≤◌, ◌+◌, ◌*◌};
ghost use Rattle.drawing.specs.Words.{pixel_of, MOST_SHAPES, IsJoined, bands_to, shape_count};

use crate::course::Course;
use crate::page::WIRE;
use picture::{Bands, Viewport};
use std::alloc::Allocator;

/// How many shapes a picture shows at most as they are.
pub(crate) const MOST_APART: usize = 20_000;

/// How many bands there are in all lanes, with the times at which classes are mixed.
fn count_bands<A: Allocator>(bands: &Bands<A>) -> usize
    ensures value { result ≡ bands_to WIRE bands.now.classes bands.now.mixed }
    ensures within { result ≤ 2 * WIRE * MOST_SHAPES }
{
    let mut count = 0;
    for class in 0..WIRE {
        count += bands.lane(class).len() + bands.mixed(class).len();
    }
    count
}

/// Where there are more than `MOST_APART` bands and shapes in all lanes of a picture with this viewport, neighbouring
/// shapes in a lane that are closer to one another than a pixel are joined. So a picture of any length has a bounded
/// number of shapes, and a short one shows each.
pub fn fit<A: Allocator>(bands: &Bands<A>, course: &mut Course<A>, viewport: &Viewport)
    ensures bounded { bands_to WIRE bands.now.classes bands.now.mixed ≤ 2 * WIRE * MOST_SHAPES }
    ensures few { bands_to WIRE bands.now.classes bands.now.mixed + shape_count course.old.shown
        ≤ MOST_APART → course.new ≡ course.old }
    ensures shapes { MOST_APART
        < bands_to WIRE bands.now.classes bands.now.mixed + shape_count course.old.shown →
        IsJoined (pixel_of viewport.now) course.old.shown course.new.shown }
{
    let count = count_bands(bands) + course.shapes().count();
    if count > MOST_APART {
        course.join(viewport.pixel());
    }
}
