// Text and numbers put into buffers that are long enough, just long enough and too short.
use crate::out;
use std::io;

// A buffer, and the place after what was put into it, unless that is far past the buffer's end.
fn show(rt: &impl Print, buf: &[u8], next: usize) -> io::Result<()> {
    out::bracketed(rt, buf)?;
    if next < 100 {
        println!(rt; " {next}")
    } else {
        println!(rt; " ")
    }
}

fn texts(rt: &impl Print) -> io::Result<()> {
    let puts: [(usize, &[u8]); 8] = [
        (0, b""),
        (0, b"text"),
        (4, b"text"),
        (5, b"text"),
        (8, b""),
        (8, b"text"),
        (9, b""),
        (usize::MAX, b"text"),
    ];
    for (at, text) in puts {
        let mut buf = [b'.'; 8];
        let next = writing::put(&mut buf, at, text);
        show(rt, &buf, next)?;
    }
    Ok(())
}

fn own_texts(rt: &impl Print) -> io::Result<()> {
    let puts: [(usize, &[u8]); 8] = [
        (0, b""),
        (4, b"text"),
        (5, b"text"),
        (8, b"text"),
        (9, b""),
        (usize::MAX, b"text"),
        (1, b"seventeen bytes.."),
        (1, b"eighteen bytes ..."),
    ];
    for (at, text) in puts {
        let mut buf = [b'.'; 8];
        let next = writing::put_text(&mut buf, at, text);
        show(rt, &buf, next)?;
    }
    Ok(())
}

fn decimals(rt: &impl Print) -> io::Result<()> {
    let puts = [
        (1, 0),
        (1, 9),
        (1, 10),
        (1, 65535),
        (2, u32::MAX),
        (3, u32::MAX),
        (12, 7),
        (usize::MAX, 7),
    ];
    for (at, v) in puts {
        let mut buf = [b'.'; 12];
        let next = writing::put_decimal(&mut buf, at, v);
        show(rt, &buf, next)?;
    }
    Ok(())
}

fn hexes(rt: &impl Print) -> io::Result<()> {
    for (at, v) in [(1, 0), (2, u32::MAX), (3, 0xABCD_EF01)] {
        let mut buf = [b'.'; 10];
        let next = writing::put_hex(&mut buf, at, v);
        show(rt, &buf, next)?;
    }
    Ok(())
}

fn addresses(rt: &impl Print) -> io::Result<()> {
    for (at, address) in [(0, 0), (1, u32::MAX), (2, u32::MAX), (0, 0xC0A8_B227)] {
        let mut buf = [b'.'; 16];
        let next = writing::put_dotted(&mut buf, at, address);
        show(rt, &buf, next)?;
    }
    Ok(())
}

pub(crate) fn run(rt: &impl Print) -> io::Result<()> {
    texts(rt)?;
    own_texts(rt)?;
    decimals(rt)?;
    hexes(rt)?;
    addresses(rt)
}
