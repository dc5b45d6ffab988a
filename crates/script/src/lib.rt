// What the programs read: their input as far as a buffer reaches, its lines, a line's words, and the short form in which a line holds a request.
// Every function but the first has an answer for all bytes and all places, and looks at each byte at most once; `place_among` compares each word that is as
// long as the text with it besides.
#![tactic(auto)]

ghost use Rattle.std.specs.Io.{ReadsAtMost};
ghost use Rattle.std.specs.Prelude.{◌≡◌};
ghost use Rattle.writing.specs.Wrote.{Wrote, Puts};
ghost use Rattle.scan.specs.Text.{before, after, place_among};
ghost use Rattle.std.specs.Iterator.{YieldsFirstRef, item_count};
ghost use Rattle.script.specs.Lines.{lines_of, line_at, stands_for, unfolded};

use scan::{Case, Class};
use std::io::{self, Read};
use writing::Writer;

// Reads until a buffer is full or the input ends, and returns how many bytes are at the buffer's front. A read that fails ends it with that error;
// what the buffer's front then holds is not said.
pub fn read_full(input: &mut impl Read, buffer: &mut [u8]) -> io::Result<usize>
    ensures { ReadsAtMost result buffer.new }
{
    let mut done = 0;
    // No count of turns: a read may give fewer bytes than there is room for.
    while done < buffer.len() {
        let n = input.read(&mut buffer[done..])?;
        if n == 0 {
            break;
        }
        done += n;
    }
    Ok(done)
}

// What stands before the first byte of some kind, and what behind it; all of a text and nothing where it has no such byte.
fn parted(text: &[u8], separator: u8) -> (&[u8], &[u8])
    ensures front { result.0.now ≡ before separator text.now }
    ensures behind { result.1.now ≡ after separator text.now }
{
    let (front, behind) = text.split_at(scan::first_in(text, Class::Is(separator)));
    (front, behind.get(1..).unwrap_or(&[]))
}

// The line that starts at a place, without its LF; an empty one where the text ends before it.
pub fn line(s: &[u8], at: usize) -> &[u8]
    ensures { result.now ≡ line_at at s.now }
{
    let left = s.get(at..).unwrap_or(&[]);
    parted(left, b'\n').0
}

// What is left of a text, gone through line by line: each comes without its LF, and behind the last LF comes one only where bytes stand.
#[derive(PartialEq, Eq, Debug, Drop)]
pub struct Lines<'a>(pub &'a [u8]);

impl<'a> Iterator for Lines<'a> {
    type Item = &'a [u8];

    ghost next_gives = { YieldsFirstRef (λ lines. lines_of lines.0.now) };

    ghost remaining = { item_count (λ lines. lines_of lines.0.now) };

    fn next(&mut self) -> Option<&'a [u8]> {
        if self.0.is_empty() {
            return None;
        }
        let (line, left) = parted(self.0, b'\n');
        self.0 = left;
        Some(line)
    }
}

// What is left of a line, gone through word by word: words have one space between each two.
#[derive(PartialEq, Eq, Debug, Drop)]
pub struct Words<'a>(pub &'a [u8]);

impl<'a> Words<'a> {
    // The next word; an empty one where none is left.
    pub fn word(&mut self) -> &'a [u8]
        ensures word { result.now ≡ before 32 self.old.0.now }
        ensures left { self.new.0.now ≡ after 32 self.old.0.now }
    {
        let (word, left) = parted(self.0, b' ');
        self.0 = left;
        word
    }
}

// Puts what one byte stands for.
fn put_byte(w: &mut Writer, b: u8)
    ensures { Puts w.old (stands_for b) w.new }
{
    match b {
        b'|' => w.text(b"\r\n"),
        b'^' => w.text(&[b'a'; 100]),
        _ => w.text(&[b]),
    }
}

fn put_unfolded(w: &mut Writer, s: &[u8])
    ensures { Puts w.old (unfolded s.now) w.new }
{
    for &b in s {
        put_byte(w, b);
    }
}

// Puts what a text stands for at the start of a buffer, as far as the buffer reaches, and returns the place after it; one past the
// buffer's length where it does not fit.
pub fn unfold(buf: &mut [u8], s: &[u8]) -> usize
    ensures { Wrote buf.old 0 (unfolded s.now) buf.new result }
{
    let mut w = Writer::new(buf);
    put_unfolded(&mut w, s);
    w.end()
}

// The place of a text among words that have a space between each two; how many words there are where it is none of them.
pub fn place_among(words: &[u8], s: &[u8], case: Case) -> usize
    ensures { result ≡ place_among case words.now s.now }
{
    words
        .split(|b| *b == b' ')
        .take_while(|word| !scan::are_alike(word, s, case))
        .count()
}
