// The lines of a request: whether its layout is whole, and where the request line and the values of the known headers stand. One pass
// looks at each line once for the layout, and once more at the sixteen bytes in which it ends, lines behind it that start there among them; at
// the byte where each known name would end, at a header's name once more for each known one that is as long, and once for its form where it is
// none of them; and at the outer spaces of a known header's value once more.
#![tactic(auto)]

ghost use Rattle.std.specs.Prelude.{◌≡◌, ◌+◌, ◌≤◌, length, drop, get_or, false, MatchOption};
ghost use Rattle.lines.specs.Headers.{is_header};
ghost use Rattle.lines.specs.Lines.{lines, is_laid_out};
ghost use Rattle.lines.specs.Laid.{is_named, name_length, name_number, KnownIs, HeaderIs, seen_again, first_seen, LineIs, are_headers, HeadersAre, LinesAre, unseen};

use scan::{Case, Class, Span};

// The names of the known headers.
#[derive(Clone, Copy, PartialEq, Eq, Debug)]
pub enum Name {
    CSeq,
    Session,
    Transport,
    Require,
    Accept,
}

impl Name {
    // Its place in the array of what was seen.
    fn place(self) -> usize
        ensures { result ≡ name_number self }
    {
        self as usize
    }

    // How long it is.
    fn len(self) -> usize
        ensures { result ≡ name_length self }
    {
        match self {
            Name::CSeq => 4,
            Name::Session => 7,
            Name::Transport => 9,
            Name::Require => 7,
            Name::Accept => 6,
        }
    }
}

// What was seen of the headers of one name, and where the first one's value stands.
#[derive(Clone, Copy, PartialEq, Eq, Debug)]
pub enum Seen {
    Never,
    Once(Span),
    // Twice or more often.
    Again(Span),
}

impl Seen {
    // Where the first one's value stands.
    pub fn first(self) -> Option<Span>
        ensures { result ≡ first_seen self }
    {
        match self {
            Seen::Never => None,
            Seen::Once(value) | Seen::Again(value) => Some(value),
        }
    }

    // One header of the name more, whose value stands there.
    fn again(self, value: Span) -> Seen
        ensures { result ≡ seen_again self value }
    {
        match self {
            Seen::Never => Seen::Once(value),
            Seen::Once(first) | Seen::Again(first) => Seen::Again(first),
        }
    }
}

// A header line: of a known name, with the place of its value, or of any other.
#[derive(Clone, Copy, PartialEq, Eq, Debug)]
pub enum Header {
    Known { name: Name, value: Span },
    Other,
}

// A request's lines: what was seen of the known headers, each at its name's place, and where the request line ends.
#[derive(Clone, Copy, PartialEq, Eq, Debug)]
pub struct Lines {
    pub headers: [Seen; 5],
    pub line: usize,
}

impl Lines {
    // The bytes that a request has at most.
    pub const LONGEST: usize = 2048;

    // What was seen of the headers of a name.
    pub fn seen(&self, name: Name) -> Seen
        ensures { result ≡ get_or self.now.headers (name_number name) unseen }
    {
        self.headers[name.place()]
    }
}

// Whether a line is a header of that name.
fn is_named(line: &[u8], name: &[u8]) -> bool
    ensures { result ≡ is_named name.now line.now }
{
    let n = name.len();
    n < line.len() && line[n] == b':' && scan::are_alike(name, &line[..n], Case::Ignored)
}

// The known name that a line starts with; they are tried before the line is looked at for its name's end.
fn known_in(line: &[u8]) -> Option<Name>
    ensures { KnownIs line.now result }
{
    if is_named(line, b"CSeq") {
        return Some(Name::CSeq);
    }
    if is_named(line, b"Session") {
        return Some(Name::Session);
    }
    if is_named(line, b"Transport") {
        return Some(Name::Transport);
    }
    if is_named(line, b"Require") {
        return Some(Name::Require);
    }
    if is_named(line, b"Accept") {
        return Some(Name::Accept);
    }
    None
}

// Whether a line is a header.
fn is_header(line: &[u8]) -> bool
    ensures { result ≡ is_header line.now }
{
    let colon = scan::first_in(line, Class::NotName);
    0 < colon && colon < line.len() && line[colon] == b':'
}

// Reads one header line.
fn header_in(line: &[u8]) -> Option<Header>
    ensures { HeaderIs line.now result }
{
    let Some(name) = known_in(line) else {
        return is_header(line).then_some(Header::Other);
    };
    let after = name.len() + 1;
    let value = scan::trimmed(&line[after..]);
    Some(Header::Known {
        name,
        value: Span {
            start: after + value.start,
            end: after + value.end,
        },
    })
}

// How long the line is that a text starts with, where CR LF ends it.
fn line_in(s: &[u8]) -> Option<usize>
    ensures { LineIs s.now result }
{
    let end = scan::text_end(s);
    matches!(&s[end..], [b'\r', b'\n', ..]).then_some(end)
}

// Reads the header lines after a request line that ends at a place.
fn headers_after(s: &[u8], line: usize) -> Option<Lines>
    requires { line + 2 ≤ length s.now }
    ensures { MatchOption result (are_headers (lines (drop (line + 2) s.now)) ≡ false) (HeadersAre s.now line) }
{
    let mut headers = [Seen::Never; 5];
    let mut from = line + 2;
    // No `for`: an iterator over the lines would have to say of each whether CR LF ended it and where it stands, which is no plainer.
    loop {
        let end = from + line_in(&s[from..])?;
        if end == from {
            return (end + 2 == s.len()).then_some(Lines { headers, line });
        }
        if let Header::Known { name, value } = header_in(&s[from..end])? {
            let seen = &mut headers[name.place()];
            *seen = seen.again(Span {
                start: from + value.start,
                end: from + value.end,
            });
        }
        from = end + 2;
    }
}

// Reads a request's lines, where its layout is whole.
pub fn read_lines(s: &[u8]) -> Option<Lines>
    ensures { MatchOption result (is_laid_out s.now ≡ false) (LinesAre s.now) }
{
    if Lines::LONGEST < s.len() {
        return None;
    }
    let line = line_in(s)?;
    if line == 0 {
        return (s.len() == 2).then_some(Lines {
            headers: [Seen::Never; 5],
            line,
        });
    }
    headers_after(s, line)
}
