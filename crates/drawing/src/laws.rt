//! Laws of a picture's text. The function runs nothing: its contract is the law.

ghost use Rattle.std.specs.Prelude.{◌<◌, ◌≤◌};
ghost use Rattle.drawing.specs.Axis.{axis_step, first_tick, last_tick};
ghost use Rattle.drawing.specs.declared.page.Page.{Page};

/// An axis has two ticks at least: at the first multiple of its step that is shown, and at the last.
pub fn axis_law()
    ensures { (page : Page) → page.viewport.from < page.viewport.to →
        page.origin ≤ page.viewport.from →
        first_tick page (axis_step page) < last_tick page (axis_step page) }
{}
