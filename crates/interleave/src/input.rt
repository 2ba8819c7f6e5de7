// The text from standard input.
ghost use Rattle.std.specs.Prelude.{◌≤◌, length, IfOk};

use std::io;
use std::io::Read;

// Fills the room as far as the input goes, and answers what was filled. Not by `io::copy`: it asks for 8 KiB at a time, so that
// of a longer message on a socket the rest is lost, and it takes a second buffer on the stack.
pub(crate) fn read_input<'a, R: Read>(from: &mut R, room: &'a mut [u8]) -> io::Result<&'a [u8]>
    ensures { IfOk result (λ text. length text.now ≤ length room.old) }
{
    let mut filled = 0;
    while filled < room.len() {
        let count = from.read(&mut room[filled..])?;
        if count == 0 {
            break;
        }
        filled += count;
    }
    Ok(&room[..filled])
}
