// One stream of the box: its values, its PIDs, and what a query makes of them. All of it is by value; no byte of a request is copied.
#![tactic(auto)]

mod attributes;
mod list;
mod pids;

ghost use Rattle.std.specs.Prelude.{◌≡◌};
ghost use Rattle.stream.specs.Streams.{blank, are_zero, is_sound, merge_of};

pub use attributes::are_complete;
use attributes::{are_in_range, go_together, merged};
use pids::{choose, is_padded};

// Document 01's attributes that a stream keeps, as `tuning` codes them: 0 where one is missing.
#[repr(C)]
#[derive(Clone, Copy, PartialEq, Eq, Debug)]
pub struct Values {
    pub src: u32,
    pub freq: u32,
    pub pol: u32,
    pub msys: u32,
    pub mtype: u32,
    pub plts: u32,
    pub ro: u32,
    pub sr: u32,
    pub fec: u32,
}

impl Values {
    // With all of them missing, as where no stream is.
    pub const NONE: Values = Values {
        src: 0,
        freq: 0,
        pol: 0,
        msys: 0,
        mtype: 0,
        plts: 0,
        ro: 0,
        sr: 0,
        fec: 0,
    };
}

// One stream's place: live exactly if its frontend is not 0. The fields fill it without a gap, so that every byte belongs to one.
#[repr(C)]
#[derive(Clone, Copy, PartialEq, Eq, Debug)]
pub struct Stream {
    pub pids: [u16; 32],
    pub values: Values,
    pub count: u16,
    pub frontend: u8,
    pub all: u8,
}

impl Stream {
    // The PIDs that a stream has at most.
    pub const PIDS: usize = 32;

    // A place where no stream is.
    pub const NONE: Stream = Stream {
        pids: [0; 32],
        values: Values::NONE,
        count: 0,
        frontend: 0,
        all: 0,
    };

    // A new stream on a frontend, before its query is merged.
    pub fn blank(frontend: u8) -> Stream
        ensures { result ≡ blank frontend }
    {
        Stream {
            pids: [0; 32],
            values: Values {
                src: 1,
                ..Values::NONE
            },
            count: 0,
            frontend,
            all: 0,
        }
    }
}

// Whether a place where no stream is has zeros alone, its frontend aside.
pub fn is_unused(m: Stream) -> bool
    ensures { result ≡ are_zero m }
{
    let aside = Stream { frontend: 0, ..m };
    aside == Stream::NONE
}

// Whether a place is one that a table may have on a box with so many frontends.
pub fn is_sound(m: Stream, frontends: u16) -> bool
    ensures { result ≡ is_sound frontends m }
{
    let v = m.values;
    if m.frontend == 0 {
        return is_unused(m);
    }
    if frontends < u16::from(m.frontend) {
        return false;
    }
    if !are_in_range(v) {
        return false;
    }
    if !go_together(v) {
        return false;
    }
    if 1 < m.all {
        return false;
    }
    if !((m.all == 0) | (m.count == 0)) {
        return false;
    }
    is_padded(&m.pids, usize::from(m.count))
}

// Why a query is not merged.
#[derive(Clone, Copy, PartialEq, Eq, Debug)]
pub enum Refusal {
    // The combination rule would be broken.
    Combination,
    // The stream would have more than 32 PIDs.
    TooMany,
}

// Merges a query into a stream: its codes by the attribute's place in document 01's table, 0 where one is not given, and its lists of
// PIDs as they are written. They are obeyed entry by entry, so that a list may be of any length. Gives the stream after it.
pub fn merge(
    m: Stream,
    codes: [u32; 13],
    pids: &[u8],
    delpids: &[u8],
    addpids: &[u8],
) -> Result<Stream, Refusal>
    ensures { result ≡ merge_of m codes pids.now delpids.now addpids.now }
{
    let values = merged(m.values, codes);
    if !go_together(values) {
        return Err(Refusal::Combination);
    }
    let picked = choose(m, codes, pids, delpids, addpids)?;
    let count = picked.list.len() as u16;
    Ok(Stream {
        pids: picked.list.laid_out(),
        values,
        count,
        frontend: m.frontend,
        all: u8::from(picked.all),
    })
}
