//! The numbers of classes in a line.

ghost use Rattle.schedule_check.specs.Words.{class_word, Writes};
ghost use Rattle.std.specs.List.{flat_map};

use port_text::answer_text::{Part, WriteFault, put_parts};
use std::io::Write;

/// Writes a space and the number of a class.
fn put_class<W: Write>(writer: &mut W, class: u8) -> Result<(), WriteFault>
    ensures { Writes result (W.contents writer.old) (W.contents writer.new) (class_word class) }
{
    put_parts(writer, &[Part::Text(b" "), Part::Number(u128::from(class))])
}

/// Writes a space and a number for each class.
pub(crate) fn put_classes<W: Write>(writer: &mut W, classes: &[u8]) -> Result<(), WriteFault>
    ensures { Writes result (W.contents writer.old) (W.contents writer.new)
        (flat_map class_word classes.now) }
{
    for class in classes {
        put_class(writer, *class)?;
    }
    Ok(())
}
