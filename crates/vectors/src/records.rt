// Records written and read: document 01's example, one flawed byte at each of its places, and every limit of every field.
use journal::{Record, Refusal};
use std::io;

// The record of the request program's opening.
const EXAMPLE: Record = Record {
    kind: 1,
    cause: 0,
    clock: 0,
    session: 1,
    stream: 1,
    frontend: 1,
    sequence: 0,
};

// One of a session that joins, as late as can be.
const MIXED: Record = Record {
    kind: 2,
    cause: 0,
    clock: u32::MAX,
    session: 0x1234_5678,
    stream: 2,
    frontend: 3,
    sequence: u16::MAX,
};

fn record(rt: &impl Print, r: Record) -> io::Result<()> {
    print!(rt;
        "kind {} cause {} clock {} session {}",
        r.kind, r.cause, r.clock, r.session
    )?;
    println!(rt;
        " stream {} frontend {} sequence {}",
        r.stream, r.frontend, r.sequence
    )
}

fn refused(rt: &impl Print, why: Refusal) -> io::Result<()> {
    println!(rt; "refused {}", journal::number(why))
}

fn read(rt: &impl Print, bytes: &[u8], place: usize) -> io::Result<()> {
    match journal::read(bytes, place) {
        Ok(r) => record(rt, r),
        Err(why) => refused(rt, why),
    }
}

// The bytes of a record, zeros where it is none, and what is read of them again.
fn write(rt: &impl Print, r: Record) -> io::Result<()> {
    let written = journal::write(r);
    for byte in &written.unwrap_or([0; Record::SIZE]) {
        print!(rt; "{byte} ")?;
    }
    match written {
        Ok(bytes) => read(rt, &bytes, 0),
        Err(why) => refused(rt, why),
    }
}

fn flaws(rt: &impl Print) -> io::Result<()> {
    let Ok(good) = journal::write(EXAMPLE) else {
        return Ok(());
    };
    for place in 0..Record::SIZE {
        for change in [1, 255] {
            let mut bytes = good;
            bytes[place] = good[place].wrapping_add(change);
            read(rt, &bytes, 0)?;
        }
    }
    Ok(())
}

// Kinds and causes from 0 to 4, each with each.
fn kinds(rt: &impl Print) -> io::Result<()> {
    for kind in 0..5 {
        for cause in 0..5 {
            write(
                rt,
                Record {
                    kind,
                    cause,
                    ..EXAMPLE
                },
            )?;
        }
    }
    Ok(())
}

// A closing with its session, stream and frontend at their limits and past them, and a record that joins.
fn limits(rt: &impl Print) -> io::Result<()> {
    for (session, stream, frontend) in [
        (0, 1, 1),
        (u32::MAX, 8, 8),
        (1, 0, 1),
        (1, 9, 1),
        (1, 1, 0),
        (1, 1, 9),
    ] {
        write(
            rt,
            Record {
                kind: 3,
                cause: 3,
                session,
                stream,
                frontend,
                ..EXAMPLE
            },
        )?;
    }
    write(rt, MIXED)
}

fn places(rt: &impl Print) -> io::Result<()> {
    let bytes = [0u8; 48];
    for (length, place) in [
        (0, 0),
        (15, 0),
        (17, 0),
        (16, 0),
        (16, 1),
        (48, 2),
        (48, 3),
        (48, usize::MAX),
    ] {
        read(rt, &bytes[..length], place)?;
    }
    Ok(())
}

fn sequences(rt: &impl Print) -> io::Result<()> {
    let second = journal::next_sequence(0);
    let last = journal::next_sequence(65534);
    let first = journal::next_sequence(65535);
    println!(rt; "{second} {last} {first}")
}

pub(crate) fn run(rt: &impl Print) -> io::Result<()> {
    write(rt, EXAMPLE)?;
    flaws(rt)?;
    kinds(rt)?;
    limits(rt)?;
    places(rt)?;
    sequences(rt)
}
