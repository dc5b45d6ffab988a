// The status line: a match from status number to reason phrase, and to all of its line with it, which is then one text.
ghost use Rattle.std.specs.Prelude.{[]};
ghost use Rattle.writing.specs.Wrote.{Puts};
ghost use Rattle.scan.specs.Text.{text};
ghost use Rattle.answer.specs.Lines.{reason_of};
ghost use Rattle.answer.specs.Answers.{status_with};

use writing::Writer;

// The line of a status that document 001 gives no reason.
#[inline(always)]
fn put_unnamed(w: &mut Writer, status: u32)
    ensures { Puts w.old (status_with status []) w.new }
{
    w.text(b"RTSP/1.0 ");
    w.decimal(status);
    w.text(b" \r\n");
}

// The status line: "`RTSP/1.0 `, code, space, reason".
#[inline(always)]
pub(crate) fn put_status(w: &mut Writer, status: u32)
    ensures { Puts w.old (status_with status (text (reason_of status))) w.new }
{
    match status {
        200 => w.text(b"RTSP/1.0 200 OK\r\n"),
        400 => w.text(b"RTSP/1.0 400 Bad Request\r\n"),
        403 => w.text(b"RTSP/1.0 403 Forbidden\r\n"),
        404 => w.text(b"RTSP/1.0 404 Not Found\r\n"),
        405 => w.text(b"RTSP/1.0 405 Method Not Allowed\r\n"),
        414 => w.text(b"RTSP/1.0 414 Request-URI Too Long\r\n"),
        454 => w.text(b"RTSP/1.0 454 Session Not Found\r\n"),
        455 => w.text(b"RTSP/1.0 455 Method Not Valid in This State\r\n"),
        461 => w.text(b"RTSP/1.0 461 Unsupported Transport\r\n"),
        501 => w.text(b"RTSP/1.0 501 Not Implemented\r\n"),
        503 => w.text(b"RTSP/1.0 503 Service Unavailable\r\n"),
        505 => w.text(b"RTSP/1.0 505 RTSP Version Not Supported\r\n"),
        551 => w.text(b"RTSP/1.0 551 Option Not Supported\r\n"),
        _ => put_unnamed(w, status),
    }
}
