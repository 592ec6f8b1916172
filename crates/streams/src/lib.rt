// Reading an input or a file as a whole, piece by piece, into a lent buffer.

#![tactic(auto)]

ghost use Rattle.std.specs.Prelude.{◌≤◌, take, length};
ghost use Rattle.std.specs.Io.KnownBytes.{Consumes};

use std::fs::{File, Files};
use std::io::Read;

// Reads until the buffer is full, the input ends or a read fails. Answers how many bytes it put at the buffer's start; where it is known what the input
// holds, these are its first ones, and they are gone from it.
pub fn read_full<R: Read>(input: &mut R, buf: &mut [u8]) -> usize
    ensures bound { result ≤ length buf.new }
    ensures bytes { Consumes (R.remaining input.old) (R.remaining input.new) (take result buf.new) }
{
    let mut done = 0;
    while done < buf.len() {
        match input.read(&mut buf[done..]) {
            Ok(n) if n != 0 => done += n,
            _ => break,
        }
    }
    done
}

// The same of a file: 0 where it cannot be opened.
pub fn read_file<R: Files>(rt: &R, path: &str, buf: &mut [u8]) -> usize
    ensures { result ≤ length buf.new }
{
    match File::open(rt, path) {
        Ok(mut file) => read_full(&mut file, buf),
        Err(_) => 0,
    }
}
