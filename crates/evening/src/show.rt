// A table, a call's outcome and what it wrote, in words and numbers.
use std::net::Ipv4Addr;
use std::{fmt, io};
use stream::{Stream, Values};
use table::{Refusal, SatBox, Session};

pub(crate) fn outcome<T: Copy>(
    rt: &impl Print,
    label: &str,
    outcome: Result<T, Refusal>,
) -> io::Result<()> {
    match outcome {
        Ok(_) => print!(rt; "{label} done"),
        Err(why) => {
            let number = table::number(why);
            print!(rt; "{label} refused {number}")
        }
    }
}

// The numbers that a call may move, to the end of the line.
pub(crate) fn state(rt: &impl Print, t: &SatBox) -> io::Result<()> {
    let open = finding::count_open(&t.sessions);
    println!(rt;
        ", clock {} sequence {} held {} open {open}",
        t.clock, t.sequence, t.held
    )
}

// Bytes in hexadecimal, each after a space.
#[derive(PartialEq, Eq, Debug, Drop)]
struct Hex<'a>(&'a [u8]);

impl fmt::Display for Hex<'_> {
    fn fmt<W: fmt::Write>(&self, f: &mut fmt::Formatter<W>) -> fmt::Result {
        for byte in self.0 {
            write!(f, " {byte:02X}")?;
        }
        Ok(())
    }
}

// The records in some bytes of a journal: a line for each, for bytes that are no whole record too.
pub(crate) fn records(rt: &impl Print, bytes: &[u8]) -> io::Result<()> {
    for record in bytes.chunks(16) {
        println!(rt; " {}", Hex(record))?;
    }
    Ok(())
}

fn session(rt: &impl Print, place: usize, s: &Session) -> io::Result<()> {
    print!(rt;
        "  place {place} session {:08X} stream {} owner {}",
        s.number, s.stream, s.owner
    )?;
    print!(rt; " playing {} last {} port {}", s.playing, s.last, s.port)?;
    println!(rt; " address {}", Ipv4Addr::from_bits(s.address))
}

fn values(rt: &impl Print, v: &Values) -> io::Result<()> {
    print!(rt;
        " src {} freq {} pol {} msys {} mtype {}",
        v.src, v.freq, v.pol, v.msys, v.mtype
    )?;
    print!(rt; " plts {} ro {} sr {} fec {}", v.plts, v.ro, v.sr, v.fec)
}

// What a frontend is to be set to, with the first PIDs of the array.
pub(crate) fn stream(rt: &impl Print, m: &Stream) -> io::Result<()> {
    print!(rt; " frontend {}", m.frontend)?;
    values(rt, &m.values)?;
    print!(rt; " all {} pids {}:", m.all, m.count)?;
    for pid in m.pids.iter().take(m.count as usize) {
        print!(rt; " {pid}")?;
    }
    Ok(())
}

// A line for each open session.
fn sessions(rt: &impl Print, t: &SatBox) -> io::Result<()> {
    for (place, s) in t.sessions.iter().enumerate() {
        if s.number != 0 {
            session(rt, place, s)?;
        }
    }
    Ok(())
}

// A line for each live stream, with its ID.
fn streams(rt: &impl Print, t: &SatBox) -> io::Result<()> {
    for (place, m) in t.streams.iter().enumerate() {
        if m.frontend != 0 {
            print!(rt; "  stream {}", place + 1)?;
            stream(rt, m)?;
            println!(rt; "")?;
        }
    }
    Ok(())
}

pub(crate) fn table(rt: &impl Print, t: &SatBox) -> io::Result<()> {
    let settings = t.settings;
    print!(rt;
        "  frontends {} size {} reach",
        settings.frontends, settings.size
    )?;
    for set in &settings.reach {
        print!(rt; " {set}")?;
    }
    if formed::standing_of(t).is_some() {
        print!(rt; ", well formed")?;
    } else {
        print!(rt; ", not well formed")?;
    }
    state(rt, t)?;
    sessions(rt, t)?;
    streams(rt, t)
}
