// Stored cases: reading them from a file, and printing what a call answers and leaves.
#![tactic(auto)]

ghost use Rattle.std.specs.Prelude.{◌≤◌, ◌<◌, ◌≡◌, length, IfOk, OnErr};

use codes::refusals::Refusal;
use std::io::Read;
use std::rt::Files;
use std::{fs, io};

// The next byte of the file, 0 where there is none.
pub fn next_byte(file: &mut impl Read) -> io::Result<usize>
    ensures { IfOk result (λ n. n < 256) }
{
    let mut one = [0u8; 1];
    files::read_full(file, &mut one)?;
    Ok(usize::from(one[0]))
}

// The next number of four bytes.
pub fn next_number(file: &mut impl Read) -> io::Result<usize>
    ensures { IfOk result (λ n. n < 4294967296) }
{
    let mut four = [0u8; 4];
    files::read_full(file, &mut four)?;
    Ok(u32::from_be_bytes(four) as usize)
}

// Reads the next byte string, its length in two bytes before it, to the start of `space`, and answers its length.
pub fn load(file: &mut impl Read, space: &mut [u8]) -> io::Result<usize>
    ensures within { IfOk result (λ n. n ≤ length space.new) }
    ensures kept { OnErr result (length space.new ≡ length space.old) }
{
    let high = next_byte(file)?;
    let low = next_byte(file)?;
    let n = high * 256 + low;
    if space.len() < n {
        return Ok(0);
    }
    files::read_full(file, &mut space[0..n])?;
    Ok(n)
}

// Opens a file of cases and prints its heading; none where there is no such file.
pub fn opened<R: Files + Print + Eprint>(
    rt: &R,
    path: &str,
    heading: &str,
) -> io::Result<Option<R::File>> {
    match fs::open(rt, path) {
        Ok(file) => {
            rt.print(heading)?;
            Ok(Some(file))
        }
        Err(e) => {
            eprintln!(rt; "{path}: {e}")?;
            Ok(None)
        }
    }
}

// A file of cases is its parts, each begun by a byte that is not 0. They end where the file does; there are no more
// than `most`. A part is given its number, from 1 on, and its byte.
pub fn each_part<R: Files + Print + Eprint, P: FnMut(&mut R::File, usize, usize) -> io::Result<()>>(
    rt: &R,
    path: &str,
    heading: &str,
    most: usize,
    mut part: P,
) -> io::Result<()>
    requires { P.IsAlwaysCallable part }
{
    let Some(mut file) = opened(rt, path, heading)? else {
        return Ok(());
    };
    for number in 1..=most {
        let byte = next_byte(&mut file)?;
        if byte == 0 {
            return Ok(());
        }
        part(&mut file, number, byte)?;
    }
    Ok(())
}

// A word and a number after it.
pub fn say(rt: &impl Print, word: &str, n: usize) -> io::Result<()> {
    print!(rt; "{word}{n}")
}

// A refusal's number, any of them, and its place.
pub fn refused(rt: &impl Print, number: usize, place: usize) -> io::Result<()> {
    say(rt, "refused ", number)?;
    say(rt, " at ", place)
}

// A refusal of a call.
pub fn tell_refusal(rt: &impl Print, refusal: Refusal) -> io::Result<()> {
    refused(rt, refusal.number(), refusal.place)
}

// One number more in the sum.
fn mixed(sum: usize, number: usize) -> usize
    requires { (sum < 1000003) × (number < 4294967296) }
    ensures { result < 1000003 }
{
    (sum * 65599 + number) % 1000003
}

// What is lent to a call: bytes or cells.
pub trait Lent: Copy + From<u8> {
    // One more in the sum.
    fn mixed_in(self, sum: usize) -> usize
        requires { sum < 1000003 }
        ensures { result < 1000003 };
}

impl Lent for u8 {
    fn mixed_in(self, sum: usize) -> usize {
        mixed(sum, usize::from(self))
    }
}

// A cell in the sum: its sign, then the upper and lower 32 bits of z, or of -1 - z below 0.
impl Lent for i64 {
    fn mixed_in(self, sum: usize) -> usize {
        let bits = cells::bits_of(self);
        if bits < 0x8000_0000_0000_0000 {
            return mixed(
                mixed(mixed(sum, 0), bits / 0x1_0000_0000),
                bits % 0x1_0000_0000,
            );
        }
        let rest = 0xffff_ffff_ffff_ffff - bits;
        mixed(
            mixed(mixed(sum, 1), rest / 0x1_0000_0000),
            rest % 0x1_0000_0000,
        )
    }
}

// The sum of all that was lent.
pub fn sum_of<T: Lent>(lent: &[T]) -> usize
    ensures { result < 1000003 }
{
    let mut sum: usize = 1;
    for cell in lent {
        sum = cell.mixed_in(sum);
    }
    sum
}

// A call in lent room: 9 stands in all of it before, and the sum of it after.
fn one_case<T: Lent, C: Fn(&[u8], &[u8], &mut [T]) -> io::Result<()>>(
    rt: &impl Print,
    given: &[u8],
    doc: &[u8],
    lent: &mut [T],
    call: &C,
) -> io::Result<()>
    requires called { C.IsAlwaysCallable call.now }
    requires spoilt { (cell : T) → T.is_infallible cell }
{
    lent.fill(T::from(9));
    call(given, doc, lent)?;
    say(rt, " sum ", sum_of(lent))?;
    println!(rt)
}

// The cases of a group, of each how much of the room is lent (4 bytes). What the call is given, and the catalogue,
// are the same in all of them.
pub fn each_case<T: Lent, C: Fn(&[u8], &[u8], &mut [T]) -> io::Result<()>>(
    rt: &impl Print,
    file: &mut impl Read,
    times: usize,
    given: &[u8],
    doc: &[u8],
    room: &mut [T],
    call: &C,
) -> io::Result<()>
    requires called { C.IsAlwaysCallable call.now }
    requires spoilt { (cell : T) → T.is_infallible cell }
{
    for _ in 0..times {
        let lent = next_number(file)?;
        if lent <= room.len() {
            one_case(rt, given, doc, &mut room[0..lent], call)?;
        }
    }
    Ok(())
}
