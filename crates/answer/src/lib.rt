// An answer's text, written straight into a lent buffer, line by line: the status line, CSeq, what its kind adds, and the empty line. Every
// byte is written once, and nothing is copied but CSeq's digits, a host and a Require value, from where they stand in the request.
#![tactic(auto)]

mod puts;
mod status;

ghost use Rattle.writing.specs.Wrote.{Wrote, Puts};
ghost use Rattle.scan.specs.Found.{text_at};
ghost use Rattle.answer.specs.Answers.{setup_lines, play_lines, options_lines, lines_of, answer_text};

use puts::{PUBLIC, part, put_cseq, put_numbered, put_session, put_transport, put_unsupported};
use scan::Span;
use status::put_status;
use writing::Writer;

// What an answer carries after its CSeq.
#[derive(Clone, Copy, PartialEq, Eq, Debug)]
pub enum Kind {
    Bare,
    Allow,
    Public,
    Unsupported,
    Options,
    Setup,
    Play,
    Teardown,
}

// An answer: its kind says which of its fields are written. `session` is 0 where none is named; `cseq` is where in the request CSeq's digits stand,
// and `text` where the host or the Require value does.
#[derive(Clone, Copy, PartialEq, Eq, Debug)]
pub struct Answer {
    pub kind: Kind,
    pub status: u32,
    pub cseq: Span,
    pub session: u32,
    pub stream: u32,
    pub address: u32,
    pub port: u32,
    pub text: Span,
}

#[inline(always)]
fn put_options(w: &mut Writer, session: u32)
    ensures { Puts w.old (options_lines session) w.new }
{
    if session == 0 {
        w.text(PUBLIC);
        return;
    }
    put_session(w, session, b"\r\n");
    w.text(PUBLIC);
}

#[inline(always)]
fn put_setup(w: &mut Writer, a: Answer)
    ensures { Puts w.old (setup_lines a.session a.address a.port a.stream) w.new }
{
    put_session(w, a.session, b";timeout=60\r\n");
    put_transport(w, a.address, a.port);
    put_numbered(w, b"com.ses.streamID: ", a.stream);
}

#[inline(always)]
fn put_play(w: &mut Writer, a: Answer, host: &[u8])
    ensures { Puts w.old (play_lines a.session host.now a.stream) w.new }
{
    put_session(w, a.session, b"\r\n");
    w.text(b"RTP-Info: url=rtsp://");
    w.text(host);
    put_numbered(w, b"/stream=", a.stream);
}

// The lines of an answer's kind, with the host or the Require value that it repeats.
#[inline(always)]
fn put_lines(w: &mut Writer, a: Answer, request: &[u8])
    ensures { Puts w.old (lines_of (text_at request.now a.text) a) w.new }
{
    match a.kind {
        Kind::Bare => {}
        Kind::Allow => w.text(b"Allow: OPTIONS\r\n"),
        Kind::Public => w.text(PUBLIC),
        Kind::Unsupported => put_unsupported(w, part(request, a.text)),
        Kind::Options => put_options(w, a.session),
        Kind::Setup => put_setup(w, a),
        Kind::Play => put_play(w, a, part(request, a.text)),
        Kind::Teardown => put_session(w, a.session, b"\r\n"),
    }
}

#[inline(always)]
fn put_answer(w: &mut Writer, a: Answer, request: &[u8])
    ensures { Puts w.old (answer_text request.now a) w.new }
{
    put_status(w, a.status);
    put_cseq(w, request, a.cseq);
    put_lines(w, a, request);
    w.text(b"\r\n");
}

// Writes an answer to the front of a buffer and returns its length, or one more than the buffer's where it does not fit.
pub fn write(buf: &mut [u8], a: Answer, request: &[u8]) -> usize
    ensures { Wrote buf.old 0 (answer_text request.now a) buf.new result }
{
    let mut w = Writer::new(buf);
    put_answer(&mut w, a, request);
    w.end()
}
