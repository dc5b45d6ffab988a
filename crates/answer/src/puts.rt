// The lines of an answer behind its status line, and what they are made of; a line ends in CR LF.
ghost use Rattle.std.specs.Prelude.{◌≡◌};
ghost use Rattle.writing.specs.Wrote.{Puts};
ghost use Rattle.scan.specs.Text.{text};
ghost use Rattle.answer.specs.Lines.{cseq_line, session_line, public_line, transport_line, refused_lines};
ghost use Rattle.answer.specs.Answers.{numbered};
ghost use Rattle.scan.specs.Found.{text_at};

use scan::Span;
use writing::Writer;

pub(crate) const PUBLIC: &[u8] = b"Public: OPTIONS, SETUP, PLAY, TEARDOWN\r\n";

// What stands at a place of the request; nothing where there is no such place.
#[tactic(auto, unfolding(scan::specs::Found::text_at))]
pub(crate) fn part(request: &[u8], place: Span) -> &[u8]
    ensures { result.now ≡ text_at request.now place }
{
    request.get(place.start..place.end).unwrap_or(&[])
}

// The CSeq of a request that has one: its digits are copied from their place.
#[inline(always)]
pub(crate) fn put_cseq(w: &mut Writer, request: &[u8], place: Span)
    ensures { Puts w.old (cseq_line (text_at request.now place)) w.new }
{
    let digits = part(request, place);
    if digits.is_empty() {
        return;
    }
    w.text(b"CSeq: ");
    w.text(digits);
    w.text(b"\r\n");
}

// A line that a number ends.
#[inline(always)]
pub(crate) fn put_numbered(w: &mut Writer, name: &[u8], v: u32)
    ensures { Puts w.old (numbered name.now v) w.new }
{
    w.text(name);
    w.decimal(v);
    w.text(b"\r\n");
}

// A session's line, with what ends it.
#[inline(always)]
pub(crate) fn put_session(w: &mut Writer, session: u32, end: &[u8])
    ensures { Puts w.old (session_line session end.now) w.new }
{
    w.text(b"Session: ");
    w.hex(session);
    w.text(end);
}

#[inline(always)]
pub(crate) fn put_unsupported(w: &mut Writer, value: &[u8])
    ensures { Puts w.old (refused_lines 5 value.now) w.new }
{
    w.text(b"Unsupported: ");
    w.text(value);
    w.text(b"\r\n");
}

// The second of the ports `a-b` is a + 1.
#[inline(always)]
pub(crate) fn put_transport(w: &mut Writer, address: u32, port: u32)
    ensures { Puts w.old (transport_line address port) w.new }
{
    w.text(b"Transport: RTP/AVP;unicast;destination=");
    w.dotted(address);
    w.text(b";client_port=");
    w.decimal(port);
    put_numbered(w, b"-", port.wrapping_add(1));
}
