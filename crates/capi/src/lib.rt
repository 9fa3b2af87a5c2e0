// The C interface: making a collector, the five events and the showing call over a record that C owns, and a table of units and
// a medium that it lends. Each answers document 01's number, and leaves what the specification machine leaves; specs/Calls.antt
// and specs/EitherRun.antt say what a list of calls comes to. include/collector.h declares it.
#![tactic(auto)]

ghost use Rattle.std.specs.Prelude.{ℕ, ◌≡◌, List, []};
ghost use Rattle.machine.specs.Machine.{bus_reset, bulk_out, bulk_in, set_switch};
ghost use Rattle.machine.specs.Machine as machines;
ghost use Rattle.cevents.specs.Events.{left, on_record, left_made, on_making};
ghost use Rattle.cevents.specs.Shown.{left_shown, show_on_record, left_reply, reply_on_record};

use cevents::show::{turn_reply, turn_show};
use cevents::turn::{turn_control, turn_in, turn_make, turn_out, turn_reset, turn_switch};
use crecord::record::{Given, Record, Shown, Told};
use machine::record::LogicalUnit;

// A collector of these numbers over the table and the medium; a refused making leaves a record of zeros, and the table as it
// was.
#[unsafe(no_mangle)]
pub extern "C" fn collector_make(
    held: &mut Record,
    number: u64,
    vendor: u16,
    product: u16,
    release: u16,
    table: &mut [LogicalUnit],
    medium: &[u8],
) -> Told
    ensures { left_made result held.new table.new ≡ on_making (record { number = number; vendor = vendor; product = product; release = release }) table.old medium.now }
{
    let given = Given {
        number,
        vendor,
        product,
        release,
    };
    turn_make(held, given, table, medium)
}

// No medium is lent to a bus reset, a setting of a switch or a control request: whichever there is stays as it was.
#[unsafe(no_mangle)]
pub extern "C" fn collector_bus_reset(held: &mut Record, table: &mut [LogicalUnit]) -> Told
    ensures { (m : List ℕ) → left result held.new table.new m [] ≡ on_record held.old table.old m bus_reset }
{
    turn_reset(held, table)
}

#[unsafe(no_mangle)]
pub extern "C" fn collector_set_switch(
    held: &mut Record,
    table: &mut [LogicalUnit],
    position: u8,
    unit: u8,
) -> Told
    ensures { (m : List ℕ) → left result held.new table.new m [] ≡ on_record held.old table.old m (set_switch position unit) }
{
    turn_switch(held, table, position, unit)
}

#[unsafe(no_mangle)]
pub extern "C" fn collector_control(
    held: &mut Record,
    table: &mut [LogicalUnit],
    setup: &[u8],
    buffer: &mut [u8],
) -> Told
    ensures { (m : List ℕ) → left result held.new table.new m buffer.new ≡ on_record held.old table.old m (machines.control setup.now buffer.old) }
{
    turn_control(held, table, setup, buffer)
}

#[unsafe(no_mangle)]
pub extern "C" fn collector_bulk_out(
    held: &mut Record,
    table: &mut [LogicalUnit],
    medium: &mut [u8],
    packet: &[u8],
) -> Told
    ensures { left result held.new table.new medium.new [] ≡ on_record held.old table.old medium.old (bulk_out packet.now) }
{
    turn_out(held, table, medium, packet)
}

// An ask changes no unit: the table is lent for reading.
#[unsafe(no_mangle)]
pub extern "C" fn collector_bulk_in(
    held: &mut Record,
    table: &[LogicalUnit],
    medium: &[u8],
    buffer: &mut [u8],
) -> Told
    ensures { left result held.new table.now medium.now buffer.new ≡ on_record held.old table.now medium.now (bulk_in buffer.old) }
{
    turn_in(held, table, medium, buffer)
}

// The next packet of data on bulk-in, shown where it stands.
#[unsafe(no_mangle)]
pub extern "C" fn collector_show(
    held: &mut Record,
    table: &[LogicalUnit],
    medium: &[u8],
    reply: &[u8],
) -> Shown
    ensures { left_shown result held.new table.now medium.now ≡ show_on_record held.old table.now medium.now reply.now }
{
    turn_show(held, table, medium, reply)
}

// The record's reply, for a showing call to be lent it.
#[unsafe(no_mangle)]
pub extern "C" fn collector_reply(held: &Record, table: &[LogicalUnit], buffer: &mut [u8]) -> Told
    ensures { (m : List ℕ) → left_reply result buffer.new ≡ reply_on_record held.now table.now m buffer.old }
{
    turn_reply(held, table, buffer)
}
