// What a request asks, in words and numbers.
use crate::out;
use aim::Method;
use reader::{Asked, Refused, Session};
use std::io;

fn method(m: Method) -> &'static str {
    match m {
        Method::Options => "options",
        Method::Setup => "setup",
        Method::Play => "play",
        Method::Teardown => "teardown",
        Method::Other => "other",
    }
}

fn session(rt: &impl Print, s: Session) -> io::Result<()> {
    match s {
        Session::Absent => print!(rt; " session -"),
        Session::Malformed => print!(rt; " session bad"),
        Session::Named(number) => print!(rt; " session {number:08X}"),
    }
}

fn transport(rt: &impl Print, port: Option<u32>) -> io::Result<()> {
    match port {
        None => print!(rt; " port -"),
        Some(port) => print!(rt; " port {port}"),
    }
}

// The attributes that are given, by their places: the code of each, and of a list of PIDs its text.
fn attributes(rt: &impl Print, query: &[u8], asked: &Asked) -> io::Result<()> {
    for (i, (code, span)) in asked.codes.iter().zip(&asked.spans).enumerate() {
        if *code == 0 {
            continue;
        }
        print!(rt; " {i}={code}")?;
        if 9 < i {
            out::part(rt, query, *span)?;
        }
    }
    Ok(())
}

fn passed(rt: &impl Print, s: &[u8], asked: &Asked) -> io::Result<()> {
    print!(rt; " step 0 status 200 cseq ")?;
    out::digits(rt, s, Some(asked.cseq))?;
    print!(rt;
        " method {} stream {} host ",
        method(asked.method),
        asked.stream.unwrap_or(0)
    )?;
    out::part(rt, s, asked.host)?;
    session(rt, asked.session)?;
    transport(rt, asked.transport)?;
    let Some(query) = asked.query else {
        return Ok(());
    };
    match s.get(query.start..query.end) {
        Some(query) => attributes(rt, query, asked),
        None => Ok(()),
    }
}

fn refused(rt: &impl Print, s: &[u8], refused: &Refused) -> io::Result<()> {
    let step = refusals::step(refused.refusal);
    let status = refusals::status(refused.refusal);
    print!(rt; " step {step} status {status} cseq ")?;
    out::digits(rt, s, refused.cseq)?;
    if let Some(require) = refused.require {
        print!(rt; " require ")?;
        out::part(rt, s, require)?;
    }
    Ok(())
}

// What the request `s` asks of a box with two frontends, or why it is refused.
pub(crate) fn request(rt: &impl Print, s: &[u8]) -> io::Result<()> {
    match reader::read(s, 2) {
        Ok(asked) => passed(rt, s, &asked),
        Err(why) => refused(rt, s, &why),
    }
}
