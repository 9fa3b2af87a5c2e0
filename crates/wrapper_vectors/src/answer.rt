// How the codec's functions end, in words.
use bot::refused::Refused;
use hexprint::Hex;
use std::io;
use std::io::Write;

// A whole line: a name, and what is shown of a result or the refusal.
pub(crate) fn ended<W: Write, T: Drop, F: FnOnce(&mut W, T) -> io::Result<()>>(
    out: &mut W,
    name: &str,
    ending: Result<T, Refused>,
    show: F,
) -> io::Result<()>
    requires { F.IsAlwaysCallable show }
{
    write!(out, "{name}")?;
    match ending {
        Ok(value) => show(out, value)?,
        Err(refused) => write!(out, " {refused}")?,
    }
    writeln!(out)
}

// The bytes that were written.
pub(crate) fn written(
    out: &mut impl Write,
    name: &str,
    answer: Result<usize, Refused>,
    buffer: &[u8],
) -> io::Result<()> {
    ended(out, name, answer, |out, count| {
        write!(out, "{}", Hex(&buffer[..count.min(buffer.len())]))
    })
}
