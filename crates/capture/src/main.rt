// Checks capture files: reads each, checks it, saves it again and compares, and prints a line of it.
#![tactic(auto)]

ghost use Rattle.std.specs.Prelude.{◌≤◌, IfOk};

use report::{examine, line, unreadable, usage};
use rows::LONGEST;
use std::fs::File;
use std::io::Read;
use std::{env, io};

// One byte more than any capture has, so that a longer file is refused without being read whole.
const READ_LIMIT: usize = LONGEST + 1;

// Fills the place from a file's start, and says how many bytes came. By reads of its own: of the library's readers, one with a
// buffer fetches more than it is asked for, which is then missing in a pipe, and `io::copy` clears a large place first.
fn first_bytes(rt: &HostRuntime, name: &str, place: &mut [u8; READ_LIMIT]) -> io::Result<usize>
    ensures { IfOk result (λ n. n ≤ READ_LIMIT) }
{
    let mut file = File::open(rt, name)?;
    let mut len = 0;
    while len < place.len() {
        let more = file.read(&mut place[len..])?;
        if more == 0 {
            break;
        }
        len += more;
    }
    Ok(len)
}

// The line of one file.
fn line_of(rt: &HostRuntime, name: &str) -> io::Result<String> {
    let heap = rt.alloc();
    // an array, since reading a file must not run out of memory
    let mut place = [0u8; READ_LIMIT];
    match first_bytes(rt, name, &mut place) {
        Ok(len) => Ok(line(heap, name, examine(&place[..len]))?),
        Err(cause) => {
            let why = cause.to_string(heap)?;
            Ok(unreadable(heap, name, why.as_str())?)
        }
    }
}

// A line for each file that is named.
fn run(rt: &HostRuntime) -> anyhow::Result<()> {
    let names = env::args(rt)?.skip(1);
    if names.len() == 0 {
        rt.println(usage())?;
    }
    for name in names {
        rt.println(line_of(rt, name.as_str())?)?;
    }
    Ok(())
}

fn main(rt: HostRuntime) -> anyhow::Result<()> {
    run(&rt)
}
