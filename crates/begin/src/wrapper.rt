// A packet where a wrapper is due: its fields and the plan of its command, where it is accepted.
ghost use Rattle.std.specs.Prelude.{◌≡◌};
ghost use Rattle.machine.specs.Wrapper.{wrapper_of};

use bot::cbw::read_header;
use machine::record::LogicalUnit;
use machine::wrapper::Wrapper;
use scsi::command::{block_length, plan_of};
use units::table::unit_at;
use units::unit::is_protected;
use wire::slices::byte;

// The command block is read where it stands, from byte 15 on, for the unit that the wrapper names. None is a broken wrapper.
pub fn read_wrapper(packet: &[u8], units: &[LogicalUnit]) -> Option<Wrapper>
    ensures { result ≡ wrapper_of units.now packet.now }
{
    let header = read_header(packet)?;
    if units.len() <= (header.lun as usize) || header.size < block_length(byte(packet, 15)) {
        return None;
    }
    let unit = unit_at(units, header.lun);
    let plan = plan_of(&packet[15..], unit.blocks, is_protected(unit));
    Some(Wrapper { header, plan })
}
