// The status wrapper (BOT 5.2).
ghost use Rattle.std.specs.Prelude.{◌≡◌};
ghost use Rattle.bot.specs.Csw.{status_code, status_of, csw_bytes, read_csw, shown, write_csw};
ghost use Rattle.bot.specs.Answer.{written};

use crate::refused::Refused;
use wire::fields::{le32, put_le32};
use wire::slices::{put, starts_with};

#[derive(Clone, Copy, Debug, PartialEq, Eq)]
pub enum Status {
    Passed,
    Failed,
    PhaseError,
}

impl Status {
    // Its byte in a wrapper. Where it is called, this name says more than `u8::from`.
    pub fn code(self) -> u8
        ensures { result ≡ status_code self }
    {
        match self {
            Status::Passed => 0,
            Status::Failed => 1,
            Status::PhaseError => 2,
        }
    }
}

impl TryFrom<u8> for Status {
    type Error = Refused;

    ghost try_from_gives = { λ code r. r ≡ status_of code };

    fn try_from(code: u8) -> Result<Status, Refused> {
        match code {
            0 => Ok(Status::Passed),
            1 => Ok(Status::Failed),
            2 => Ok(Status::PhaseError),
            _ => Err(Refused),
        }
    }
}

#[derive(Clone, Copy, Debug, PartialEq, Eq)]
pub struct Csw {
    pub tag: u32,
    pub residue: u32,
    pub status: Status,
}

pub fn csw_bytes(csw: Csw) -> [u8; 13]
    ensures { result ≡ csw_bytes csw }
{
    let mut bytes = [0; 13];
    put(&mut bytes, 0, b"USBS");
    put_le32(&mut bytes, 4, csw.tag);
    put_le32(&mut bytes, 8, csw.residue);
    bytes[12] = csw.status.code();
    bytes
}

pub fn read_csw(bytes: &[u8]) -> Result<Csw, Refused>
    ensures { shown result ≡ read_csw bytes.now }
{
    if bytes.len() != 13 || !starts_with(bytes, b"USBS") {
        return Err(Refused);
    }
    let status = Status::try_from(bytes[12])?;
    Ok(Csw {
        tag: le32(bytes, 4),
        residue: le32(bytes, 8),
        status,
    })
}

pub fn write_csw(csw: Csw, buffer: &mut [u8]) -> Result<usize, Refused>
    ensures { written result buffer.new ≡ write_csw csw buffer.old }
{
    let bytes = csw_bytes(csw);
    if put(buffer, 0, &bytes) {
        Ok(bytes.len())
    } else {
        Err(Refused)
    }
}
