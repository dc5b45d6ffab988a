// What the readings write to standard output.
use scan::Span;
use std::io;

// The digits at a place of a text; a hyphen where there are none.
pub(crate) fn digits(rt: &impl Print, s: &[u8], place: Option<Span>) -> io::Result<()> {
    let Some(place) = place else {
        return print!(rt; "-");
    };
    match s.get(place.start..place.end) {
        Some(digits) => rt.write_all(digits),
        None => print!(rt; "-"),
    }
}

// A part of a text in brackets; nothing where there is no such part.
pub(crate) fn part(rt: &impl Print, s: &[u8], place: Span) -> io::Result<()> {
    match s.get(place.start..place.end) {
        Some(part) => bracketed(rt, part),
        None => Ok(()),
    }
}

pub(crate) fn bracketed(rt: &impl Print, s: &[u8]) -> io::Result<()> {
    print!(rt; "[")?;
    rt.write_all(s)?;
    print!(rt; "]")
}
