// The journal's records, as C gets them.
ghost use Rattle.std.specs.Prelude.{◌≡◌};
ghost use Rattle.journal.specs.Records.{read_at};
ghost use Rattle.door.specs.Turns.{read_from, write_reply, written_as};

use journal::{Record, Refusal};

// What reading a record gives: a refusal's number, 0 where there is none, and the record; zeros where it was refused.
#[repr(C)]
#[derive(Clone, Copy, PartialEq, Eq, Debug)]
pub struct Found {
    pub refusal: u32,
    pub entry: Record,
}

// What writing a record gives: a refusal's number, 0 where there is none, and the bytes; zeros where it was refused.
#[repr(C)]
#[derive(Clone, Copy, PartialEq, Eq, Debug)]
pub struct Noted {
    pub refusal: u32,
    pub bytes: [u8; 16],
}

// The record of a refusal.
const NO_RECORD: Record = Record {
    kind: 0,
    cause: 0,
    clock: 0,
    session: 0,
    stream: 0,
    frontend: 0,
    sequence: 0,
};

fn read_from(reading: Result<Record, Refusal>) -> Found
    ensures { result ≡ read_from reading }
{
    match reading {
        Ok(entry) => Found { refusal: 0, entry },
        Err(refusal) => Found {
            refusal: journal::number(refusal) as u32,
            entry: NO_RECORD,
        },
    }
}

pub(crate) fn read(bytes: &[u8], place: usize) -> Found
    ensures { result ≡ read_from (read_at bytes.now place) }
{
    read_from(journal::read(bytes, place))
}

fn written_as(writing: Result<[u8; 16], Refusal>) -> Noted
    ensures { result ≡ written_as writing }
{
    match writing {
        Ok(bytes) => Noted { refusal: 0, bytes },
        Err(refusal) => Noted {
            refusal: journal::number(refusal) as u32,
            bytes: [0; 16],
        },
    }
}

pub(crate) fn write(entry: Record) -> Noted
    ensures { result ≡ write_reply entry }
{
    written_as(journal::write(entry))
}
