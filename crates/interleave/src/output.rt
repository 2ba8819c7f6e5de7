// Lines to standard output.
use basics::refusal::Refusal;
use std::io;
use std::io::Write;

// Shows the line that `write` writes, in a buffer of 512 bytes, which is long enough for every line.
pub(crate) fn show<W: Write, F: FnOnce(&mut [u8]) -> Result<usize, Refusal>>(
    to: &mut W,
    write: F,
) -> io::Result<()>
    requires { F.IsAlwaysCallable write }
{
    let mut line = [0u8; 512];
    let written = write(&mut line);
    if let Ok(n) = written
        && let Some(text) = line.get(..n)
    {
        to.write_all(text)?;
    }
    Ok(())
}
