// What the programs share: a file read into a buffer, two of them lent to a closure, a line of a key and a value, words in base 16.
#![tactic(auto)]

ghost use Rattle.std.specs.Prelude.{◌<◌, ◌≤◌, [], ◌∷◌, ◌++◌, length, take, IfOk, OnOk};
ghost use Rattle.std.specs.Fmt.{decimal};
ghost use Rattle.std.specs.Io.{ReadsAtMost};
ghost use Rattle.console.specs.Hexadecimal.{hex_byte_of, hex_word_of};
ghost use Rattle.std.specs.Io.KnownBytes.{Appends, Consumes, IsAtEnd};

use std::fs::File;
use std::io::{Read, Write};
use std::rt::Files;
use std::{io, str};

// Room for a text, and for more bytes than a text may have, so that one that is too long is seen to be.
pub const TEXT_ROOM: usize = 65536;

// Reads until the buffer is full or the input ends, and answers how many bytes stand at the buffer's start. Not a `for`: a read
// gives as many bytes as it will, so there are no turns to count.
pub fn fill<R: Read>(input: &mut R, buffer: &mut [u8]) -> io::Result<usize>
    ensures bound { ReadsAtMost result buffer.new }
    ensures bytes { IfOk result (λ n. Consumes (R.remaining input.old) (R.remaining input.new) (take n buffer.new)) }
    ensures end { IfOk result (λ n. n < length buffer.new → IsAtEnd (R.remaining input.new)) }
{
    let mut done = 0;
    while done < buffer.len() {
        let n = input.read(&mut buffer[done..])?;
        if n == 0 {
            break;
        }
        done += n;
    }
    Ok(done)
}

// The bytes that are read until the buffer is full or the input ends.
pub fn read_full<'a, R: Read>(input: &mut R, buffer: &'a mut [u8]) -> io::Result<&'a [u8]>
    ensures bound { IfOk result (λ read. length read.now ≤ length buffer.old) }
    ensures bytes { IfOk result (λ read. Consumes (R.remaining input.old) (R.remaining input.new) read.now) }
    ensures end { IfOk result (λ read. length read.now < length buffer.old → IsAtEnd (R.remaining input.new)) }
{
    let n = fill(input, buffer)?;
    Ok(&buffer[..n])
}

// The bytes of the file that the buffer has room for; a missing file counts as empty, and so does any other that cannot be opened. By
// the name's bytes, as it was always taken: a &str would ask more of a caller.
pub fn read_file<'a>(rt: &impl Files, path: &[u8], buffer: &'a mut [u8]) -> io::Result<&'a [u8]>
    ensures { IfOk result (λ read. length read.now ≤ length buffer.old) }
{
    let Ok(name) = str::from_utf8(path) else {
        return Ok(&[]);
    };
    let Ok(mut file) = File::open(rt, name) else {
        return Ok(&[]);
    };
    read_full(&mut file, buffer)
}

pub fn print<W: Write>(out: &mut W, bytes: &[u8]) -> io::Result<()>
    ensures { OnOk result (Appends (W.contents out.old) (W.contents out.new) bytes.now) }
{
    out.write_all(bytes)
}

// A line of a key, with its equals sign, and a number.
pub fn print_figure<W: Write>(out: &mut W, key: &[u8], figure: u64) -> io::Result<()>
    ensures { OnOk result (Appends (W.contents out.old) (W.contents out.new) (key.now ++ decimal figure ++ 10 ∷ [])) }
{
    print(out, key)?;
    writeln!(out, "{figure}")
}

// The digits of base 16.
const DIGITS: [u8; 16] = *b"0123456789abcdef";

// Two digits of base 16, in one piece: std's `{:02x}` would write a leading zero apart, and each piece is a call of the system.
pub fn print_hex_byte<W: Write>(out: &mut W, b: u8) -> io::Result<()>
    ensures { OnOk result (Appends (W.contents out.old) (W.contents out.new) (hex_byte_of b)) }
{
    print(out, &[DIGITS[b as usize / 16], DIGITS[b as usize % 16]])
}

// Eight digits of base 16, byte by byte: of a padded number in base 16 std has the law for a byte alone.
pub fn print_hex_word<W: Write>(out: &mut W, n: u32) -> io::Result<()>
    ensures { OnOk result (Appends (W.contents out.old) (W.contents out.new) (hex_word_of n)) }
{
    let [a, b, c, d] = n.to_be_bytes();
    print_hex_byte(out, a)?;
    print_hex_byte(out, b)?;
    print_hex_byte(out, c)?;
    print_hex_byte(out, d)
}

// What the closure makes of the two files' bytes.
pub fn with_pair<F: FnOnce(&[u8], &[u8]) -> io::Result<()>>(
    rt: &impl Files,
    plan_name: &[u8],
    policy_name: &[u8],
    f: F,
) -> io::Result<()>
    requires { F.IsAlwaysCallable f }
    ensures { OnOk result ((plan : _) × (policy : _) × F.post f plan policy result) }
{
    let mut plan_room = [0; TEXT_ROOM];
    let mut policy_room = [0; TEXT_ROOM];
    let plan = read_file(rt, plan_name, &mut plan_room)?;
    let policy = read_file(rt, policy_name, &mut policy_room)?;
    f(plan, policy)
}
