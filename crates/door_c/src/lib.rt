// What C links: the functions of `door`, exported under their own names and with their own contracts. `satbox.h` declares them.
#![tactic(auto)]

ghost use Rattle.std.specs.Prelude.{◌≡◌};
ghost use Rattle.std.specs.Result.{result_unwrap_or};
ghost use Rattle.table.specs.Made.{made_of, number_in};
ghost use Rattle.satbox.specs.Calls.{ticked, ticked_journal, collected, collected_into, replied, replied_into, replied_journal};
ghost use Rattle.orders.specs.Orders.{order_of};
ghost use Rattle.journal.specs.Records.{read_at};
ghost use Rattle.door.specs.Turns.{read_from, write_reply, reply_of, ordered_as};
ghost use Rattle.door.specs.Version.{version_number};

use door::{Found, Noted, Ordered, Reply};
use journal::Record;
use table::{SatBox, Settings};

// Makes a fresh box of the one that is lent; where that is refused, it stays.
#[unsafe(no_mangle)]
pub extern "C" fn satbox_make(t: &mut SatBox, settings: Settings) -> u32
    ensures { (result ≡ number_in (made_of settings)) × (t.new ≡ result_unwrap_or (made_of settings) t.old) }
{
    door::satbox_make(t, settings)
}

// Answers a request.
#[unsafe(no_mangle)]
pub extern "C" fn satbox_request(
    t: &mut SatBox,
    request: &[u8],
    clock: u32,
    address: u32,
    draw: u32,
    answer: &mut [u8],
    journal: &mut [u8],
) -> Reply
    ensures { (result ≡ reply_of (replied request.now clock address draw t.old answer.old journal.old).outcome)
        × (t.new ≡ (replied request.now clock address draw t.old answer.old journal.old).satbox)
        × (answer.new ≡ replied_into request.now clock address draw t.old answer.old journal.old)
        × (journal.new ≡ replied_journal request.now clock address draw t.old answer.old journal.old) }
{
    door::satbox_request(t, request, clock, address, draw, answer, journal)
}

// Closes every session that has expired.
#[unsafe(no_mangle)]
pub extern "C" fn satbox_tick(t: &mut SatBox, clock: u32, journal: &mut [u8]) -> u32
    ensures { (result ≡ number_in (ticked clock t.old journal.old).outcome)
        × (t.new ≡ (ticked clock t.old journal.old).satbox)
        × (journal.new ≡ ticked_journal clock t.old journal.old) }
{
    door::satbox_tick(t, clock, journal)
}

// Copies the bytes held to the front of a buffer, after which none are held.
#[unsafe(no_mangle)]
pub extern "C" fn satbox_collect(t: &mut SatBox, journal: &[u8], buffer: &mut [u8]) -> Reply
    ensures { (result ≡ reply_of (collected t.old journal.now buffer.old).outcome)
        × (t.new ≡ (collected t.old journal.now buffer.old).satbox)
        × (buffer.new ≡ collected_into t.old journal.now buffer.old) }
{
    door::satbox_collect(t, journal, buffer)
}

// What a frontend is to be set to.
#[unsafe(no_mangle)]
pub extern "C" fn satbox_order(t: &mut SatBox, frontend: u32) -> Ordered
    ensures { (result ≡ ordered_as (order_of t.old frontend)) × (t.new ≡ t.old) }
{
    door::satbox_order(t, frontend)
}

// Reads the record at a place; places count from 0.
#[unsafe(no_mangle)]
pub extern "C" fn satbox_read_record(bytes: &[u8], place: usize) -> Found
    ensures { result ≡ read_from (read_at bytes.now place) }
{
    door::satbox_read_record(bytes, place)
}

// Writes a record's sixteen bytes.
#[unsafe(no_mangle)]
pub extern "C" fn satbox_write_record(entry: Record) -> Noted
    ensures { result ≡ write_reply entry }
{
    door::satbox_write_record(entry)
}

// The version of this archive, which `satbox.h` has as `SATBOX_VERSION`.
#[unsafe(no_mangle)]
pub extern "C" fn satbox_version() -> u32
    ensures { result ≡ version_number }
{
    door::satbox_version()
}
