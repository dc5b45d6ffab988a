// Every line of standard input through every reading of a text.
use crate::out::{self, yes_or_no};
use digits::Zeros;
use scan::{Case, Class};
use script::Lines;
use std::io::{self, Read};

fn trimmed(rt: &impl Print, s: &[u8]) -> io::Result<()> {
    let place = scan::trimmed(s);
    print!(rt; ", trimmed ")?;
    out::bracketed(rt, &s[place.start..place.end])
}

fn numbers(rt: &impl Print, s: &[u8]) -> io::Result<()> {
    let plain = digits::number(s, Zeros::Allowed, 5, 65535);
    let bare = digits::number(s, Zeros::Refused, 5, 65535);
    let wide = digits::number(s, Zeros::Allowed, 10, u32::MAX);
    out::read(rt, ", plain ", plain)?;
    out::read(rt, ", bare ", bare)?;
    out::read(rt, ", wide ", wide)?;
    out::read(rt, ", hex ", digits::hex_number(s))
}

fn classes(rt: &impl Print, s: &[u8]) -> io::Result<()> {
    let name = yes_or_no(scan::all_in(s, Class::Name));
    let text = yes_or_no(scan::all_in(s, Class::Text));
    let alike = yes_or_no(scan::are_alike(s, b"CSeq", Case::Ignored));
    let same = yes_or_no(scan::are_alike(s, b"CSeq", Case::Counts));
    println!(rt; ", name {name}, text {text}, CSeq {alike} {same}")
}

fn line(rt: &impl Print, s: &[u8]) -> io::Result<()> {
    out::bracketed(rt, s)?;
    trimmed(rt, s)?;
    numbers(rt, s)?;
    classes(rt, s)
}

pub(crate) fn run(from: &mut impl Read, rt: &impl Print) -> io::Result<()> {
    let mut input = [0u8; 4096];
    let n = script::read_full(from, &mut input)?;
    for text in Lines(&input[..n]) {
        line(rt, text)?;
    }
    Ok(())
}
