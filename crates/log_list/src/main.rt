// Lists the records of a log, one to a line.
#![tactic(auto)]

mod lines;

use lines::list;
use std::io;
use std::io::{Read, Write};

fn main(rt: HostRuntime) -> io::Result<()> {
    let mut log = Vec::new(rt.alloc());
    rt.stdin().read_to_end(&mut log)?;
    let text = list(rt.alloc(), log.as_slice())?;
    rt.stdout().write_all(text.as_slice())
}
