//! Where a replay writes.

/// The two outputs of a replay.
#[derive(Drop)]
pub struct Outputs<V, W> {
    /// The report.
    pub report: V,
    /// The capture of the frames that leave.
    pub departures: W,
}
