//! Laws of tables. The functions run nothing: the contract of each is its law.

ghost use Rattle.frame_table.specs.Once.{CountLaw, OnceLaw, ScriptLaw};
ghost use Rattle.frame_table.specs.Told.{ToldLaw};

/// Each frame that comes in a run is in the table once: those of a class that are sent or left are those that joined
/// it, in their order; those that are dropped are those of which the port says so, in their order; and there are as
/// many rows as frames that come, where each map that a command gives leads to the eight classes. Each map of a script
/// does, whatever its octets are.
pub fn once()
    ensures once { OnceLaw }
    ensures each { CountLaw }
    ensures script { ScriptLaw }
{}

/// Each start of a run of a new port is told by one row: the starts of the rows that are `sent` are those that the port
/// answers, in their order, each with its moments; and the row is that of the frame that starts, by its ID and class,
/// which came no later. So no row is `sent` without a start.
pub fn told()
    ensures { ToldLaw }
{}
