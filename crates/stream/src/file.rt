// A stored file, read where it is wanted.
ghost use Rattle.std.specs.Prelude.{◌≡◌};
ghost use Rattle.io.specs.Counts.{IsPrefixLen};
ghost use Rattle.stream.specs.File.{advanced};

use std::fs::File;
use std::io::{Read, Seek, SeekFrom};

// Places of a file end here, and so do steps in it: no stored stream is longer.
const LAST: u32 = 0x1000_0000;

const STEP: usize = 0x1_0000;

// The bytes of the file from `at` on, as many as fit. A read that fails counts as the file's end, and a seek that fails is not told apart from one
// that is made.
pub fn window(file: &mut File, at: u32, bytes: &mut [u8]) -> usize
    ensures { IsPrefixLen result bytes.new }
{
    let _ = file.seek(SeekFrom::Start(at as u64));
    read_full(file, bytes)
}

// Reads until `bytes` is full or the file ends, and says how many bytes that were. A read that fails counts as the file's end.
pub fn read_full(file: &mut File, bytes: &mut [u8]) -> usize
    ensures { IsPrefixLen result bytes.new }
{
    let mut done = 0;
    while done < bytes.len() {
        let n = file.read(&mut bytes[done..]).unwrap_or(0);
        if n == 0 {
            break;
        }
        done += n;
    }
    done
}

// The place n bytes behind `at`.
pub fn behind(at: u32, n: usize) -> u32
    ensures { result ≡ advanced at n }
{
    if STEP < n {
        return at;
    }
    if LAST < at {
        return at;
    }
    at + n as u32
}
