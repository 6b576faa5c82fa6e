// Reads a script from standard input, and prints for each line the form in its plain spelling, or the fault.
#![tactic(auto)]

ghost use Rattle.std.specs.Prelude.{◌≤◌, length, IfOk};

use answers::Answer;
use script::read_line;
use std::io;
use std::io::Read;
use tokens::Lines;

// Only so much of the input counts.
const MOST: usize = 65_536;

// Reads until the buffer is full or the input ends, and gives the bytes that were read.
fn fill<'a>(input: &mut impl Read, buffer: &'a mut [u8]) -> io::Result<&'a [u8]>
    ensures { IfOk result (λ bytes. length bytes.now ≤ length buffer.old) }
{
    let mut count = 0;
    for _ in 0..MOST {
        if count >= buffer.len() {
            break;
        }
        let got = input.read(&mut buffer[count..])?;
        if got == 0 {
            break;
        }
        count += got;
    }
    Ok(&buffer[..count])
}

fn report(rt: &impl Print, line: &[u8]) -> io::Result<()> {
    match read_line(line) {
        Ok(form) => rt.println(form),
        Err(fault) => rt.println(Answer::Refused {
            number: fault.number,
            detail: fault.column as u64,
        }),
    }
}

fn main(rt: HostRuntime) -> io::Result<()> {
    let mut buffer = [0; MOST];
    let input = fill(&mut rt.stdin(), &mut buffer)?;
    for line in Lines::new(input) {
        report(&rt, line)?;
    }
    Ok(())
}
