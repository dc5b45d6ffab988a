// What C gets of each call.
ghost use Rattle.std.specs.Prelude.{◌≡◌};
ghost use Rattle.table.specs.Made.{number_in};
ghost use Rattle.door.specs.Turns.{reply_of, ordered_as};

use stream::Stream;
use table::Refusal;

// A refusal's number, 0 where the call was done; and how many bytes it put into the buffer that it was lent.
#[repr(C)]
#[derive(Clone, Copy, PartialEq, Eq, Debug)]
pub struct Reply {
    pub refusal: u32,
    pub count: u32,
}

// A frontend's order: a refusal's number, whether it is on, and the stream where it is.
#[repr(C)]
#[derive(Clone, Copy, PartialEq, Eq, Debug)]
pub struct Ordered {
    pub refusal: u32,
    pub on: u32,
    pub stream: Stream,
}

pub(crate) fn number_in(outcome: Result<(), Refusal>) -> u32
    ensures { result ≡ number_in outcome }
{
    match outcome {
        Ok(()) => 0,
        Err(refusal) => table::number(refusal) as u32,
    }
}

pub(crate) fn reply_of(outcome: Result<u32, Refusal>) -> Reply
    ensures { result ≡ reply_of outcome }
{
    match outcome {
        Ok(count) => Reply { refusal: 0, count },
        Err(refusal) => Reply {
            refusal: table::number(refusal) as u32,
            count: 0,
        },
    }
}

pub(crate) fn ordered_as(order: Result<Option<Stream>, Refusal>) -> Ordered
    ensures { result ≡ ordered_as order }
{
    match order {
        Ok(Some(stream)) => Ordered {
            refusal: 0,
            on: 1,
            stream,
        },
        Ok(None) => Ordered {
            refusal: 0,
            on: 0,
            stream: Stream::NONE,
        },
        Err(refusal) => Ordered {
            refusal: table::number(refusal) as u32,
            on: 0,
            stream: Stream::NONE,
        },
    }
}
