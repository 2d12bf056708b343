// Replays an interrupt trace on the machine of the cabinet: standard input is the trace, its listing goes to standard output.
#![tactic(auto)]

use anyhow::anyhow;
use levels::{BsdLevel, Class};
use playback::Stream;
use std::env;
use std::io::{Read, Write};
use trace::Saved;

const HELP: &str = "usage: ./replay [FILE...]

Replays each FILE, an interrupt trace, on a machine of its own and writes its listing on standard
output: one line for each line of the trace. Without a FILE standard input is the trace. (The
program replay itself reads standard input alone.)

A trace sets routes, starts the machine and makes its calls, one to a line:

  a L F      route of line L: F adds 1 if the head handles it, 2 if the head passes it on,
             4 if the root handles it
  b          start; before it only a and b are commands, after it all others
  i L        raise line L
  m S        mask of the hardware, a set of lines in hexadecimal
  k D S      mask of kernel D, which is h (head) or r (root)
  p N        pump: at most N lines arrive
  n D, d D   next and done for kernel D
  s D, u D   stall and unstall kernel D
  v D C      set the level of kernel D by its code C, and save the level before it
  x D        set the level of kernel D that was saved last

A line that is refused lists '! NUMBER PLACE' and the replay goes on; the exit status is 0 then too.
It is 1 if the input can't be read, the output can't be written or memory runs out.
docs/RULES.md has all rules, and examples/ has traces with their listings.";

// How much is read at a time.
const BLOCK: usize = 65536;

// Replays the input block by block, and writes the listing of each block as it comes.
fn replay<R: Read>(rt: &HostRuntime, input: &mut R) -> anyhow::Result<()> {
    let heap = rt.alloc();
    let mut head_places = [Class(0); 16];
    let mut root_places = [BsdLevel::None; 16];
    let mut saved = Saved::over(&mut head_places, &mut root_places);
    let mut stream = Stream::new(heap);
    let mut block = vec![in heap; 0u8; BLOCK]?;
    let mut listing = Vec::new(heap);
    // as often as there is more; a bound, since a loop without one needs leave to run for ever
    for _ in 0..u64::MAX {
        let n = input.read(&mut block)?;
        if n == 0 {
            break;
        }
        stream = stream.feed(&mut saved, &block[0..n], &mut listing)?;
        rt.stdout().write_all(&listing)?;
        listing.clear();
    }
    let _left = stream.finish(&mut saved, &mut listing)?;
    rt.stdout().write_all(&listing)?;
    Ok(())
}

fn start(rt: &HostRuntime) -> anyhow::Result<()> {
    match env::args(rt)?.nth(1) {
        None => replay(rt, &mut rt.stdin()),
        Some(word) if word.as_str() == "--help" => Ok(println!(rt; "{HELP}")?),
        Some(word) => {
            eprintln!(rt; "replay: '{word}' is not --help; the trace is read from standard input")?;
            Err(anyhow!("bad argument"))
        }
    }
}

fn main(rt: HostRuntime) -> anyhow::Result<()> {
    start(&rt)
}
