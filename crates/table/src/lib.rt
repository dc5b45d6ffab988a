// The box's table: its sessions and streams, and a fresh one. Any bytes are a table; whether a box could stand so is said by
// the crate `formed`.
#![tactic(auto)]

mod numbers;
mod reach;

ghost use Rattle.std.specs.Prelude.{◌≡◌};
ghost use Rattle.table.specs.Formed.{are_settings};
ghost use Rattle.table.specs.Made.{refusal_number, stored, made_of};

use journal::Record;
pub use numbers::{are_distinct, is_among};
pub use reach::{has_source, set_of, size_of};
use stream::Stream;

// One session's place: free exactly if its number is 0. The fields fill it without a gap, so that every byte belongs to one.
#[repr(C)]
#[derive(Clone, Copy, PartialEq, Eq, Debug)]
pub struct Session {
    pub number: u32,
    pub address: u32,
    pub last: u32,
    pub port: u32,
    pub stream: u8,
    pub owner: u8,
    pub playing: u16,
}

impl Session {
    // A place where no session is.
    pub const NONE: Session = Session {
        number: 0,
        address: 0,
        last: 0,
        port: 0,
        stream: 0,
        owner: 0,
        playing: 0,
    };
}

// What is fixed when a box is made: the journal's size, the frontends, and the set of sources that each of these reaches. The spare bytes are
// nobody's: they fill the struct.
#[repr(C)]
#[derive(Clone, Copy, PartialEq, Eq, Debug)]
pub struct Settings {
    pub size: u32,
    pub frontends: u16,
    pub spare: u16,
    pub reach: [u8; 8],
}

impl Settings {
    // Those that no box has.
    pub const NONE: Settings = Settings {
        size: 0,
        frontends: 0,
        spare: 0,
        reach: [0; 8],
    };
}

// The box: its places, what is fixed, the bytes held of the journal, the clock and the sequence of the next record; and the bytes that fill it.
#[repr(C)]
#[derive(Clone, Copy, PartialEq, Eq, Debug)]
pub struct SatBox {
    pub sessions: [Session; 32],
    pub streams: [Stream; 8],
    pub settings: Settings,
    pub held: u32,
    pub clock: u32,
    pub sequence: u16,
    pub spare: u16,
}

// Why a call was refused.
#[derive(Clone, Copy, Debug, PartialEq, Eq)]
pub enum Refusal {
    // The table is not well formed.
    Table,
    // The journal's length is not its size.
    Journal,
    // The answer buffer is too short.
    Answer,
    // The collecting buffer is shorter than the bytes held.
    Buffer,
    // There is no such frontend.
    Frontend,
    // The frontends, the journal's size or a frontend's set of sources are outside their range.
    Sizes,
}

impl SatBox {
    pub const SESSIONS: usize = 32;

    pub const STREAMS: usize = 8;

    pub const MOST_FRONTENDS: u16 = 8;

    pub const LEAST_SIZE: u32 = 1024;

    pub const MOST_SIZE: u32 = 65536;

    // The bytes that a record takes in the journal.
    pub const RECORD: u32 = Record::SIZE as u32;

    pub const TIMEOUT: u32 = 60;

    // The bytes that an answer buffer has at least.
    pub const ANSWER: usize = 4096;

    // A box with nothing open, its clock at 0.
    #[tactic(auto, unfolding(crate::specs::Made::made_of))]
    pub fn fresh(settings: Settings) -> Result<SatBox, Refusal>
        ensures { result ≡ made_of settings }
    {
        let kept = stored(settings);
        if !are_settings(kept) {
            return Err(Refusal::Sizes);
        }
        Ok(empty(kept))
    }
}

// Whether F and C are in range, and the frontends' sets of sources are some.
pub fn are_settings(settings: Settings) -> bool
    ensures { result ≡ are_settings settings }
{
    let frontends = settings.frontends;
    let size = settings.size;
    let reach = settings.reach;
    ((1 <= frontends) & (frontends <= SatBox::MOST_FRONTENDS))
        & (((SatBox::LEAST_SIZE <= size) & (size <= SatBox::MOST_SIZE))
            & (size % SatBox::RECORD == 0))
        & reach::are_sets(&reach, frontends as usize)
}

// The settings as a box keeps them: nothing above the last frontend, and nothing in the spare bytes.
fn stored(settings: Settings) -> Settings
    ensures { result ≡ stored settings }
{
    let mut kept = settings.reach;
    reach::clear_from(&mut kept, settings.frontends as usize);
    Settings {
        size: settings.size,
        frontends: settings.frontends,
        spare: 0,
        reach: kept,
    }
}

fn empty(settings: Settings) -> SatBox
    ensures { result ≡ Rattle.table.specs.Made.fresh settings }
{
    SatBox {
        sessions: [Session::NONE; 32],
        streams: [Stream::NONE; 8],
        settings,
        held: 0,
        clock: 0,
        sequence: 0,
        spare: 0,
    }
}

// Document 01's number of a refusal.
pub fn number(refusal: Refusal) -> u8
    ensures { result ≡ refusal_number refusal }
{
    match refusal {
        Refusal::Table => 1,
        Refusal::Journal => 2,
        Refusal::Answer => 3,
        Refusal::Buffer => 4,
        Refusal::Frontend => 5,
        Refusal::Sizes => 6,
    }
}
