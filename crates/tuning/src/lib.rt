// One stream's values: document 01's attributes by their names, and what their texts are worth. A byte of a number is looked at once; a
// byte of a frequency or of a list of PIDs once more, for the dot or the commas; a byte of a name or a word at most once for each word
// of the table that is as long. The text of pids is looked at as a word before it is read as a list. No byte is copied.
#![tactic(auto)]

ghost use Rattle.std.specs.Prelude.{◌≡◌, ◌<◌, length};
ghost use Rattle.scan.specs.Found.{FirstOf};
ghost use Rattle.scan.specs.Text.{is};
ghost use Rattle.digits.specs.Reading.{read_number};
ghost use Rattle.tuning.specs.Values.{plain, frequency, are_pids, pid_list, value_of};
ghost use Rattle.tuning.specs.Found.{attribute_named, megahertz, tenfold, fraction, hundredths, in_band, is_pid, place_of, code_of};

use digits::Zeros;
use scan::{Case, Class};

// The names of the attributes, by their places in document 01's table.
const NAMES: [&[u8]; 13] = [
    b"src", b"fe", b"freq", b"pol", b"msys", b"mtype", b"plts", b"ro", b"sr", b"fec", b"pids",
    b"addpids", b"delpids",
];

// The words of pol in the order of their codes; below it those of each other attribute that has words.
const POL: [&[u8]; 4] = [b"h", b"v", b"l", b"r"];

const MSYS: [&[u8]; 2] = [b"dvbs", b"dvbs2"];

const MTYPE: [&[u8]; 2] = [b"qpsk", b"8psk"];

const PLTS: [&[u8]; 2] = [b"on", b"off"];

const RO: [&[u8]; 3] = [b"0.35", b"0.25", b"0.20"];

const FEC: [&[u8]; 9] = [
    b"12", b"23", b"34", b"56", b"78", b"89", b"35", b"45", b"910",
];

const PIDS: [&[u8]; 2] = [b"all", b"none"];

// The place of a text among some words, which are compared whole.
#[tactic(auto, unfolding(crate::specs::Found::place_of))]
fn place_of(words: &[&[u8]], s: &[u8]) -> Option<usize>
    ensures { result ≡ place_of words.now s.now }
{
    words
        .iter()
        .position(|word| scan::are_alike(word, s, Case::Counts))
}

// The place of an attribute's name in document 01's table, where it has such a name.
pub fn attribute_of(name: &[u8]) -> Option<usize>
    ensures { result ≡ attribute_named name.now }
{
    place_of(&NAMES, name)
}

// The code of a word: its place among the words, counted from 1.
#[tactic(auto, unfolding(crate::specs::Found::place_of))]
fn word(words: &[&[u8]], s: &[u8]) -> Option<u32>
    requires { length words.now < 256 }
    ensures { result ≡ code_of words.now s.now }
{
    place_of(words, s).map(|place| place as u32 + 1)
}

// A number of one to five digits from `least` to `most`.
fn plain(least: u32, most: u32, s: &[u8]) -> Option<u32>
    ensures { result ≡ plain least most s.now }
{
    digits::at_least(least, digits::number(s, Zeros::Allowed, 5, most))
}

// The five digits of MHz before the dot.
fn megahertz(s: &[u8], dot: usize) -> Option<u32>
    requires { FirstOf (is 46) s.now dot }
    ensures { result ≡ megahertz s.now }
{
    if dot == 5 {
        digits::number(&s[..dot], Zeros::Allowed, 5, 99999)
    } else {
        None
    }
}

// One digit of tenths, in hundredths.
fn tenths(s: &[u8]) -> Option<u32>
    ensures { result ≡ tenfold (read_number Zeros.Allowed 1 9 s.now) }
{
    digits::number(s, Zeros::Allowed, 1, 9).map(|v| v * 10)
}

// Tenths, or tenths and hundredths, in hundredths.
fn fraction(s: &[u8]) -> Option<u32>
    ensures { result ≡ fraction s.now }
{
    if s.len() == 1 {
        tenths(s)
    } else if s.len() == 2 {
        digits::number(s, Zeros::Allowed, 2, 99)
    } else {
        None
    }
}

// The hundredths after the dot: none where there is no dot.
fn hundredths(s: &[u8], dot: usize) -> Option<u32>
    requires { FirstOf (is 46) s.now dot }
    ensures { result ≡ hundredths s.now }
{
    if dot < s.len() {
        fraction(&s[dot + 1..])
    } else {
        Some(0)
    }
}

// A frequency in hundredths of a MHz, where it is one that can be tuned.
fn in_band(v: u32) -> Option<u32>
    ensures { result ≡ in_band v }
{
    (1070000..=1275000).contains(&v).then_some(v)
}

// A frequency: MHz, and perhaps a dot and one or two digits more.
fn frequency(s: &[u8]) -> Option<u32>
    ensures { result ≡ frequency s.now }
{
    let dot = scan::first_in(s, Class::Is(b'.'));
    let whole = megahertz(s, dot)?;
    let rest = hundredths(s, dot)?;
    in_band(whole * 100 + rest)
}

// Whether a text is the number of a PID.
fn is_pid(s: &[u8]) -> bool
    ensures { result ≡ is_pid s.now }
{
    digits::number(s, Zeros::Allowed, 5, 8191).is_some()
}

// Whether a text is PIDs with a comma between each two.
fn are_pids(s: &[u8]) -> bool
    ensures { result ≡ are_pids s.now }
{
    s.split(|b| *b == b',').all(is_pid)
}

// A list of PIDs, which is obeyed later and has one code.
fn pid_list(s: &[u8]) -> Option<u32>
    ensures { result ≡ pid_list s.now }
{
    are_pids(s).then_some(3)
}

// The code of an attribute's value on a box with so many frontends; nothing where the value is outside the table.
#[tactic(auto, unfolding(crate::specs::Values::value_of))]
pub fn value_of(frontends: u8, attribute: usize, s: &[u8]) -> Option<u32>
    ensures { result ≡ value_of frontends attribute s.now }
{
    match attribute {
        0 => plain(1, 4, s),
        1 => plain(1, frontends as u32, s),
        2 => frequency(s),
        3 => word(&POL, s),
        4 => word(&MSYS, s),
        5 => word(&MTYPE, s),
        6 => word(&PLTS, s),
        7 => word(&RO, s),
        8 => plain(1000, 45000, s),
        9 => word(&FEC, s),
        10 => word(&PIDS, s).or_else(|| pid_list(s)),
        11 => pid_list(s),
        12 => pid_list(s),
        _ => None,
    }
}
