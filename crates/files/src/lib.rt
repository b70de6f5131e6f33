// Files read into lent slices.
#![tactic(auto)]

ghost use Rattle.std.specs.Prelude.{◌≡◌, ◌≤◌, length, IfOk, OnErr};

use std::io::Read;
use std::rt::Files;
use std::{fs, io};

// Reads until `space` is full or the file ends, and answers how many bytes it put at the start of `space`.
pub fn read_full(file: &mut impl Read, space: &mut [u8]) -> io::Result<usize>
    ensures within { IfOk result (λ n. n ≤ length space.new) }
    ensures kept { OnErr result (length space.new ≡ length space.old) }
{
    let mut done: usize = 0;
    // As it is: (d) a read says how far it came, so no range counts the bytes.
    while done < space.len() {
        let n = file.read(&mut space[done..])?;
        if n == 0 {
            break;
        }
        done += n;
    }
    Ok(done)
}

// Reads a file to the start of `space`, no further than that is long, and answers how many bytes it read. A missing
// file is empty.
pub fn load(rt: &impl Files, path: &str, space: &mut [u8]) -> io::Result<usize>
    ensures within { IfOk result (λ n. n ≤ length space.new) }
    ensures kept { OnErr result (length space.new ≡ length space.old) }
{
    match fs::open(rt, path) {
        Ok(mut file) => read_full(&mut file, space),
        Err(_) => Ok(0),
    }
}
