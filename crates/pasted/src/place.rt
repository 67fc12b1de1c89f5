//! Where a line stands.

ghost use Rattle.std.specs.Prelude.{◌≡◌};
ghost use Rattle.pasted.specs.Lines.{place_behind};

/// Where a line stands among those of an input.
#[derive(Clone, Copy, Debug, PartialEq, Eq)]
pub enum Place {
    /// The input begins with it.
    First,
    /// It begins a line, and is joined to none.
    Begin,
    /// It is joined to a line that is a command.
    Command,
    /// It is joined to a line that is none.
    Other,
}

/// Where the line stands that comes behind one at a place, where that one joins it or not.
pub(crate) fn place_behind(place: Place, joined: bool) -> Place
    ensures { result ≡ place_behind place joined }
{
    if !joined {
        return Place::Begin;
    }
    match place {
        Place::Command => Place::Command,
        Place::First | Place::Begin | Place::Other => Place::Other,
    }
}
