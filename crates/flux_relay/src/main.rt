// Reads calls on standard input, and answers each at once on standard output.

#![tactic(auto)]

use line_input::input::{Got, next_line};
use service::service::Service;
use std::io;
use std::io::{BufRead, BufReader};

// Serves line after line up to the end of the input, whatever the lines hold.
fn serve<B: BufRead>(rt: &HostRuntime, input: &mut B) -> io::Result<()> {
    let heap = rt.alloc();
    let mut service = Service::new(heap);
    let mut line = Vec::new(heap);
    let mut out = Vec::new(heap);
    // A loop has a bound: the range counts nothing.
    for _ in 0..u64::MAX {
        out.clear();
        match next_line(input, &mut line)? {
            Got::Line => service.serve(line.as_slice(), &mut out)?,
            Got::Long => service.serve_long(&mut out)?,
            Got::End => break,
        }
        rt.write_all(out.as_slice())?;
    }
    out.clear();
    service.finish(&mut out)?;
    rt.write_all(out.as_slice())
}

fn main(rt: HostRuntime) -> io::Result<()> {
    let mut input = BufReader::new(rt.alloc(), rt.stdin())?;
    serve(&rt, &mut input)
}
