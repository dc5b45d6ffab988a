// The door to the box: the box lent by a reference, one thin function for each call, which `door_c` exports to C. Each hands the box by value to
// the call, and stores what the call gives; an order only looks at it. What comes back is a refusal's number, 0 where the call was done, and what was counted.
#![tactic(auto)]

mod records;
mod turns;

ghost use Rattle.std.specs.Prelude.{◌≡◌};
ghost use Rattle.std.specs.Result.{result_unwrap_or};
ghost use Rattle.table.specs.Made.{made_of, number_in};
ghost use Rattle.satbox.specs.Calls.{ticked, ticked_journal, collected, collected_into, replied, replied_into, replied_journal};
ghost use Rattle.orders.specs.Orders.{order_of};
ghost use Rattle.journal.specs.Records.{read_at};
ghost use Rattle.door.specs.Turns.{read_from, write_reply, reply_of, ordered_as};
ghost use Rattle.door.specs.Version.{version_number};

use journal::Record;
pub use records::{Found, Noted};
use table::{SatBox, Settings};
pub use turns::{Ordered, Reply};

// The two numbers of the file VERSION.
const FIRST: u32 = 1;

const SECOND: u32 = 4;

// Makes a fresh box of the one that is lent; where that is refused, it stays.
pub fn satbox_make(t: &mut SatBox, settings: Settings) -> u32
    ensures { (result ≡ number_in (made_of settings)) × (t.new ≡ result_unwrap_or (made_of settings) t.old) }
{
    match SatBox::fresh(settings) {
        Ok(satbox) => {
            *t = satbox;
            0
        }
        Err(refusal) => table::number(refusal) as u32,
    }
}

// Answers a request.
pub fn satbox_request(
    t: &mut SatBox,
    request: &[u8],
    clock: u32,
    address: u32,
    draw: u32,
    answer: &mut [u8],
    journal: &mut [u8],
) -> Reply
    ensures { (result ≡ reply_of (replied request.now clock address draw t.old answer.old journal.old).outcome)
        × (t.new ≡ (replied request.now clock address draw t.old answer.old journal.old).satbox)
        × (answer.new ≡ replied_into request.now clock address draw t.old answer.old journal.old)
        × (journal.new ≡ replied_journal request.now clock address draw t.old answer.old journal.old) }
{
    let replied = satbox::request(*t, request, clock, address, draw, answer, journal);
    *t = replied.satbox;
    turns::reply_of(replied.outcome)
}

// Closes every session that has expired.
pub fn satbox_tick(t: &mut SatBox, clock: u32, journal: &mut [u8]) -> u32
    ensures { (result ≡ number_in (ticked clock t.old journal.old).outcome)
        × (t.new ≡ (ticked clock t.old journal.old).satbox)
        × (journal.new ≡ ticked_journal clock t.old journal.old) }
{
    let ticked = satbox::tick(*t, clock, journal);
    *t = ticked.satbox;
    turns::number_in(ticked.outcome)
}

// Copies the bytes held to the front of a buffer, after which none are held.
pub fn satbox_collect(t: &mut SatBox, journal: &[u8], buffer: &mut [u8]) -> Reply
    ensures { (result ≡ reply_of (collected t.old journal.now buffer.old).outcome)
        × (t.new ≡ (collected t.old journal.now buffer.old).satbox)
        × (buffer.new ≡ collected_into t.old journal.now buffer.old) }
{
    let collected = satbox::collect(*t, journal, buffer);
    *t = collected.satbox;
    turns::reply_of(collected.outcome)
}

// What a frontend is to be set to.
pub fn satbox_order(t: &mut SatBox, frontend: u32) -> Ordered
    ensures { (result ≡ ordered_as (order_of t.old frontend)) × (t.new ≡ t.old) }
{
    turns::ordered_as(orders::frontend_order(t, frontend))
}

// Reads the record at a place; places count from 0.
pub fn satbox_read_record(bytes: &[u8], place: usize) -> Found
    ensures { result ≡ read_from (read_at bytes.now place) }
{
    records::read(bytes, place)
}

// Writes a record's sixteen bytes.
pub fn satbox_write_record(entry: Record) -> Noted
    ensures { result ≡ write_reply entry }
{
    records::write(entry)
}

// The version of this archive, which `satbox.h` has as `SATBOX_VERSION`.
pub fn satbox_version() -> u32
    ensures { result ≡ version_number }
{
    FIRST * 65536 + SECOND
}
