// Text and numbers put into a lent buffer: decimal, hexadecimal and dotted addresses. Every function has an answer for all buffers, places and
// numbers, and writes each byte once.
#![tactic(auto)]

ghost use Rattle.std.specs.Prelude.{◌≡◌, ◌+◌, ◌-◌, ◌≤◌, ◌<◌, length};
ghost use Rattle.writing.specs.Writing.{shown, numeral, width, decimal, hex8, dotted, written};
ghost use Rattle.writing.specs.Wrote.{Wrote, Puts, starting, end_of};

// A lent buffer, and the place in it where the next text is put. Behind what did not fit that is past the buffer's end, and nothing more is put.
#[derive(Drop)]
pub struct Writer<'a> {
    buf: &'a mut [u8],
    at: usize,
}

impl<'a> Writer<'a> {
    // At the buffer's front.
    #[inline(always)]
    pub fn new(buf: &'a mut [u8]) -> Writer<'a>
        ensures { result ≡ starting buf.entry }
    {
        Writer { buf, at: 0 }
    }

    // The place behind what was put; one past the buffer's length where it did not fit.
    #[inline(always)]
    pub fn end(&self) -> usize
        ensures { result ≡ end_of self.now }
    {
        self.at.min(self.buf.len() + 1)
    }

    // Puts a text, as far as the buffer reaches.
    #[inline(always)]
    pub fn text(&mut self, t: &[u8])
        ensures { Puts self.old t.now self.new }
    {
        let (at, len) = (self.at, self.buf.len());
        if len < at {
            return;
        }
        if len - at < t.len() {
            store_front(self.buf, at, t);
            self.at = at + t.len();
            return;
        }
        store(self.buf, at, t);
        self.at = at + t.len();
    }

    // Puts the last `count` digits of v, which fit, from the last to the first.
    #[inline(always)]
    fn fitting(&mut self, v: u32, base: u32, count: usize)
        requires { (0 < base) × (base ≤ 16) × (self.old.at + count ≤ length self.old.buf.now) }
        ensures { Puts self.old (numeral base count v) self.new }
    {
        let at = self.at;
        let mut rest = v;
        for i in (0..count).rev() {
            self.buf[at + i] = shown_digit(rest % base);
            rest /= base;
        }
        self.at = at + count;
    }

    // Puts the last `count` digits of v, without those that do not fit.
    #[inline(always)]
    fn digits(&mut self, v: u32, base: u32, count: usize)
        requires { (0 < base) × (base ≤ 16) × (count ≤ 20) }
        ensures { Puts self.old (numeral base count v) self.new }
    {
        let (at, len) = (self.at, self.buf.len());
        if len < at {
            return;
        }
        if count <= len - at {
            return self.fitting(v, base, count);
        }
        let mut rest = v;
        for _ in len - at..count {
            rest /= base;
        }
        self.fitting(rest, base, len - at);
        self.at = at + count;
    }

    // Puts a number in decimal, without leading zeros.
    #[inline(always)]
    pub fn decimal(&mut self, v: u32)
        ensures { Puts self.old (decimal v) self.new }
    {
        if v < 10 {
            return self.text(&[b'0' + v as u8]);
        }
        self.digits(v, 10, decimal_width(v));
    }

    // Puts a number in eight upper-case hexadecimal digits.
    #[tactic(auto, unfolding(crate::specs::Writing::hex8))]
    #[inline(always)]
    pub fn hex(&mut self, v: u32)
        ensures { Puts self.old (hex8 v) self.new }
    {
        self.digits(v, 16, 8);
    }

    // Puts an address as its four octets in decimal with dots between them, the highest octet first.
    pub fn dotted(&mut self, address: u32)
        ensures { Puts self.old (dotted address) self.new }
    {
        self.decimal(address / 16777216);
        self.text(b".");
        self.decimal(address / 65536 % 256);
        self.text(b".");
        self.decimal(address / 256 % 256);
        self.text(b".");
        self.decimal(address % 256);
    }
}

// Puts a text that fits at a place of a buffer. By a loop: of a text of the program it becomes stores of numbers, where `copy_from_slice` tests at each
// call whether the two overlap, 22 to 54 instructions more in an answer; and over a buffer that is handed in, since C need then have no memmove.
#[inline(always)]
fn store(buf: &mut [u8], at: usize, t: &[u8])
    requires { at + length t.now ≤ length buf.old }
    ensures { buf.new ≡ written buf.old at t.now }
{
    for (i, &x) in t.iter().enumerate() {
        buf[at + i] = x;
    }
}

// Puts the front of a text that does not fit.
#[cold]
fn store_front(buf: &mut [u8], at: usize, t: &[u8])
    requires { (at ≤ length buf.old) × (length buf.old - at < length t.now) }
    ensures { buf.new ≡ written buf.old at t.now }
{
    let room = buf.len() - at;
    store(buf, at, &t[..room]);
}

// The byte that shows a digit, upper-case.
fn shown_digit(d: u32) -> u8
    requires { d < 16 }
    ensures { result ≡ shown d }
{
    if d < 10 {
        b'0' + d as u8
    } else {
        b'A' - 10 + d as u8
    }
}

// How many decimal digits v takes.
fn decimal_width(v: u32) -> usize
    ensures { (result ≡ width v) × (result ≤ 20) }
{
    v.max(1).ilog10() as usize + 1
}

// THE SAME AT A PLACE OF A BUFFER: each returns the place behind what it put, or one past the buffer's length where that did not fit. `put` is for
// callers that put one text; the other four stay since the program `vectors` calls them and `promises` has a theorem of each.
pub fn put(buf: &mut [u8], at: usize, t: &[u8]) -> usize
    ensures { Wrote buf.old at t.now buf.new result }
{
    let mut w = Writer { buf, at };
    w.text(t);
    w.end()
}

pub fn put_text(buf: &mut [u8], at: usize, t: &[u8]) -> usize
    ensures { Wrote buf.old at t.now buf.new result }
{
    put(buf, at, t)
}

pub fn put_decimal(buf: &mut [u8], at: usize, v: u32) -> usize
    ensures { Wrote buf.old at (decimal v) buf.new result }
{
    let mut w = Writer { buf, at };
    w.decimal(v);
    w.end()
}

pub fn put_hex(buf: &mut [u8], at: usize, v: u32) -> usize
    ensures { Wrote buf.old at (hex8 v) buf.new result }
{
    let mut w = Writer { buf, at };
    w.hex(v);
    w.end()
}

pub fn put_dotted(buf: &mut [u8], at: usize, address: u32) -> usize
    ensures { Wrote buf.old at (dotted address) buf.new result }
{
    let mut w = Writer { buf, at };
    w.dotted(address);
    w.end()
}
