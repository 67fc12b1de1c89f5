//! The law of captures of tables. The function runs nothing: its contract is its law.

ghost use Rattle.table_capture.specs.Law.{CaptureLaw};

use capture::laws::spelling_law;

/// What is written for a table without a fault is a capture of its frames, each once and in their order. Of each its
/// record is read with its priority and its length, and with its moment rounded down to a nanosecond.
pub fn capture_law()
    ensures { CaptureLaw }
{
    spelling_law();
}
