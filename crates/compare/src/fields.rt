//! The fields of a line.

ghost use Rattle.std.specs.Prelude.{◌≡◌, ◌<◌, ◌≤◌, ◌==◌, ◌∷◌, IfSome, length, option_map, slice_get};
ghost use Rattle.std.specs.List.{position_or_len};
ghost use Rattle.std.specs.Str.Lines.{strip_carriage_return};
ghost use Rattle.compare.specs.Fields.{fields_behind, fields_in, place_in};

/// A line without the CR at its end, if it has one.
pub(crate) fn without_return(line: &[u8]) -> &[u8]
    ensures { result.now ≡ strip_carriage_return line.now }
{
    match line {
        [front @ .., b'\r'] => front,
        _ => line,
    }
}

/// How many octets stand before the first comma.
fn front_length(line: &[u8]) -> usize
    ensures place { result ≡ position_or_len (λ octet. octet == 44) line.now }
    ensures within { result ≤ length line.now }
{
    let mut end = 0;
    while end < line.len() && line[end] != b',' {
        end += 1;
    }
    end
}

/// The first field of a line, and what stands behind the comma after it, if there is one.
fn split_field(line: &[u8]) -> (&[u8], Option<&[u8]>)
    ensures fields { fields_in line.now
        ≡ result.0.now ∷ fields_behind (option_map (λ rest. rest.now) result.1) }
    ensures less { IfSome result.1 (λ rest. length rest.now < length line.now) }
{
    let end = front_length(line);
    if end < line.len() {
        (&line[..end], Some(&line[end + 1..]))
    } else {
        (line, None)
    }
}

/// The place of the first field that is this name.
pub(crate) fn place_of<'a>(name: &'a [u8], line: &'a [u8]) -> Option<usize>
    ensures { result ≡ place_in name.now (fields_in line.now) }
{
    let mut rest = line;
    let mut place = 0;
    'fields: loop {
        let (front, behind) = split_field(rest);
        if front == name {
            return Some(place);
        }
        match behind {
            Some(more) => {
                rest = more;
                place += 1;
            }
            None => return None,
        }
    }
}

/// The field at a place, if the line has so many.
pub(crate) fn field(line: &[u8], place: usize) -> Option<&[u8]>
    ensures { option_map (λ f. f.now) result ≡ slice_get (fields_in line.now) place }
{
    let mut rest = line;
    let mut left = place;
    'fields: while left > 0 {
        match split_field(rest).1 {
            Some(more) => rest = more,
            None => return None,
        }
        left -= 1;
    }
    Some(split_field(rest).0)
}
