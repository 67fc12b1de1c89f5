//! Lines as they are pasted, as the plain lines of tc that they mean.

ghost use Rattle.std.specs.Prelude.{◌≡◌, ◌++◌, IfOk, OnErr};
ghost use Rattle.pasted.specs.Plain.{plain_rule};
ghost use Rattle.pasted.specs.Notes.{marks, noted};

use crate::line_rule::{Line, LineRule};
use crate::note::Note;
use crate::place::Place;
use crate::plain::{has_mark, is_of_command, put_text, text_after, unmarked};
use std::alloc::{AllocError, Allocator};

/// Turns lines as they are pasted into the plain lines of tc that they mean, and notes what was passed over.
#[derive(Drop)]
pub struct Tolerant<'n> {
    note: &'n mut Note,
}

impl<'n> Tolerant<'n> {
    /// What is passed over is added to the note.
    pub fn new(note: &'n mut Note) -> Tolerant<'n>
        ensures { result.note.now ≡ note.old }
    {
        Tolerant { note }
    }
}

impl LineRule for Tolerant<'_> {
    ghost rule = { λ _. plain_rule };

    fn is_whole(&self) -> bool {
        false
    }

    fn put<A: Allocator>(
        &mut self,
        line: &Line<'_>,
        out: &mut Vec<u8, A>,
    ) -> Result<Place, AllocError>
        ensures text { IfOk result (λ _. out.new.items ≡ out.old.items
            ++ (plain_rule.turned line.now.place line.now.text.now ++ line.now.end.now)) }
        ensures next { IfOk result (λ place.
            place ≡ plain_rule.next line.now.place line.now.text.now) }
        ensures rule { plain_rule ≡ plain_rule }
        ensures note { IfOk result (λ _. self.new.note.now
            ≡ noted self.old.note.now line.now.number (marks line.now.place line.now.text.now)) }
        ensures failed { OnErr result (self.new ≡ self.old) }
    {
        let place = line.place;
        let is_marked = has_mark(place, line.text);
        let text = unmarked(place, line.text);
        let of_command = is_of_command(place, text);
        let marks = put_text(place, text, is_marked, of_command, out)?;
        out.extend_from_slice(line.end)?;
        *self.note = self.note.with(line.number, marks);
        Ok(text_after(place, text, of_command))
    }
}
