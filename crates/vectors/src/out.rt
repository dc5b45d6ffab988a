// What the vectors write to standard output.
use std::io;

// Bytes in brackets.
pub(crate) fn bracketed(rt: &impl Print, bytes: &[u8]) -> io::Result<()> {
    print!(rt; "[")?;
    rt.write_all(bytes)?;
    print!(rt; "]")
}

// What was read; a hyphen where nothing was.
pub(crate) fn read(rt: &impl Print, label: &str, read: Option<u32>) -> io::Result<()> {
    match read {
        Some(v) => print!(rt; "{label}{v}"),
        None => print!(rt; "{label}-"),
    }
}

pub(crate) fn yes_or_no(is: bool) -> &'static str {
    if is { "yes" } else { "no" }
}
