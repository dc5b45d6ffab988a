// Standard input, line by line: each is a request in its short form.
use crate::{asked, out};
use script::Lines;
use std::io::{self, Read};

// The line in brackets; of a long one its start.
fn name(rt: &impl Print, s: &[u8]) -> io::Result<()> {
    match s.get(..40) {
        Some(start) if 100 < s.len() => {
            print!(rt; "[")?;
            rt.write_all(start)?;
            print!(rt; "..]")
        }
        _ => out::bracketed(rt, s),
    }
}

fn line(rt: &impl Print, s: &[u8]) -> io::Result<()> {
    let mut buf = [0u8; 4096];
    let n = script::unfold(&mut buf, s);
    name(rt, s)?;
    match buf.get(..n) {
        Some(request) => asked::request(rt, request)?,
        None => print!(rt; " too long")?,
    }
    println!(rt; "")
}

pub(crate) fn run(from: &mut impl Read, rt: &impl Print) -> io::Result<()> {
    let mut input = [0u8; 65536];
    let n = script::read_full(from, &mut input)?;
    for request in Lines(&input[..n]) {
        line(rt, request)?;
    }
    Ok(())
}
