// Lists the wires that a wiring file on standard input leaves standing.
#![tactic(auto)]

use std::io;
use std::io::Read;
use wiring::{report_text, survey_file};

fn main(rt: HostRuntime) -> io::Result<()> {
    let heap = rt.alloc();
    let mut bytes = Vec::new(heap);
    rt.stdin().take(60_000).read_to_end(&mut bytes)?;
    let survey = survey_file(heap, bytes.as_slice())?;
    let text = report_text(heap, &survey)?;
    print!(rt; "{text}")
}
