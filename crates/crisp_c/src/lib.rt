// The gateway, the sender and the records of captures for C: nine functions over the proved ones, with the same contracts. include/crisp.h declares
// and documents them.
#![tactic(auto)]

ghost use Rattle.std.specs.Prelude.{◌≡◌};
ghost use Rattle.format.specs.KeyData.{handed_in};
ghost use Rattle.entries.specs.Change.{changed};
ghost use Rattle.entries.specs.Install.{IsLeft, installed, removed};
ghost use Rattle.listing.specs.Listing.{IsListed, listed};
ghost use Rattle.loading.specs.Load.{loaded};
ghost use Rattle.gateway.specs.Receive.{IsReceived, received};
ghost use Rattle.sender.specs.Protect.{Protects};
ghost use Rattle.capture.specs.Capture.{order_of, order_number, order_numbered, record_at};

use answers::Answer;
use capture::order::Order;
use capture::record::Record;
use capture::{order, record};
use sender::Sender;
use slots::layout::TABLE;

// As `entries::install`.
#[unsafe(no_mangle)]
pub extern "C" fn crisp_install(
    table: &mut [u8; TABLE],
    flag: u8,
    keyid: &[u8],
    source: &[u8],
    suite: u8,
    edition: u8,
    key: &[u8],
    size: u64,
    start: u64,
) -> Answer
    ensures { IsLeft (installed table.old (handed_in flag keyid.now source.now suite edition key.now) (record { size = size; start = start })) result table.new }
{
    entries::install(table, flag, keyid, source, suite, edition, key, size, start)
}

// As `entries::remove`.
#[unsafe(no_mangle)]
pub extern "C" fn crisp_remove(table: &mut [u8; TABLE], slot: usize) -> Answer
    ensures { IsLeft (removed table.old slot) result table.new }
{
    entries::remove(table, slot)
}

// As `entries::change`.
#[unsafe(no_mangle)]
pub extern "C" fn crisp_change(
    table: &mut [u8; TABLE],
    slot: usize,
    flag: u8,
    keyid: &[u8],
    source: &[u8],
    suite: u8,
    edition: u8,
    key: &[u8],
    size: u64,
    start: u64,
) -> Answer
    ensures { IsLeft (changed table.old slot (handed_in flag keyid.now source.now suite edition key.now) (record { size = size; start = start })) result table.new }
{
    entries::change(
        table, slot, flag, keyid, source, suite, edition, key, size, start,
    )
}

// As `gateway::receive`.
#[unsafe(no_mangle)]
pub extern "C" fn crisp_receive(
    table: &mut [u8; TABLE],
    message: &[u8],
    source: &[u8],
    out: &mut [u8],
) -> Answer
    ensures { IsReceived (received table.old message.now source.now out.old) result table.new out.new }
{
    gateway::receive(table, message, source, out)
}

// As `listing::listing`.
#[unsafe(no_mangle)]
pub extern "C" fn crisp_listing(table: &[u8; TABLE], slot: usize, out: &mut [u8]) -> Answer
    ensures { IsListed (listed table.now slot out.old) result out.new }
{
    listing::listing(table, slot, out)
}

// As `loading::load`.
#[unsafe(no_mangle)]
pub extern "C" fn crisp_load(table: &mut [u8; TABLE], text: &[u8]) -> Answer
    ensures { IsLeft (loaded table.old text.now) result table.new }
{
    loading::load(table, text)
}

// As `sender::protect_by_value`, on a record that is lent: only its current number moves.
#[unsafe(no_mangle)]
pub extern "C" fn crisp_protect(sender: &mut Sender, payload: &[u8], out: &mut [u8]) -> Answer
    ensures { Protects sender.old payload.now out.old result sender.new out.new }
{
    let done = sender::protect_by_value(*sender, payload, out);
    sender.current = done.current;
    done.answer
}

// As `capture::order::order_of`, by its number.
#[unsafe(no_mangle)]
pub extern "C" fn crisp_capture_order(file: &[u8]) -> u64
    ensures { result ≡ order_number (order_of file.now) }
{
    Order::number(order::order_of(file))
}

// As `capture::record::record_at`, with the order by its number.
#[unsafe(no_mangle)]
pub extern "C" fn crisp_capture_record(file: &[u8], order: u64, at: usize) -> Record
    ensures { result ≡ record_at (order_numbered order) file.now at }
{
    record::record_at(file, Order::numbered(order), at)
}
