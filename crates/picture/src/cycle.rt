//! The cycle of a schedule that is given.

ghost use Rattle.std.specs.Prelude.{◌≡◌, ◌≤◌, ◌*◌, length, sum_by};
ghost use Rattle.gates.specs.declared.gate_list.TheConstants.{MAX_ENTRIES};
ghost use Rattle.picture.specs.Words.{plan_asked};

use abstract_port::Change;
use gates::gate_list::Entry;

/// The sum of the intervals, in nanoseconds.
fn total_of(entries: &[Entry]) -> u64
    requires { length entries.now ≤ MAX_ENTRIES }
    ensures { result ≡ sum_by (λ e. e.interval) entries.now }
{
    let mut total = 0;
    for entry in entries {
        total += u64::from(entry.interval);
    }
    total
}

/// How long the cycle of a change's schedule is, in picoseconds.
pub fn cycle_of(change: &Change) -> u128
    ensures { result ≡ 1000 * (plan_asked change.now).cycle }
{
    let cycle_ns = if change.cycle_ns == 0 {
        total_of(change.list.entries())
    } else {
        change.cycle_ns
    };
    1000 * u128::from(cycle_ns)
}
