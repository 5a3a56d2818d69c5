// The program `check` over many texts. Standard input has blocks: a line that starts with `=` says what is tested, and the text goes from the next line to the
// next such line, byte for byte; where the line starts with `=-`, without its last byte. Of each block its line is written, and what `check` prints of its text.
#![tactic(auto)]

use std::io;
use std::io::{Read, Write};

// A block's first line and its text.
fn try_block(rt: &HostRuntime, line: &[u8], lines: &[u8]) -> io::Result<()> {
    let cut = usize::from(line.starts_with(b"=-"));
    let text = &lines[..lines.len().saturating_sub(cut)];
    let mut to = rt.stdout();
    to.write_all(line)?;
    let mut out = [0u8; 32768];
    let printed = answers::check(text, &mut out);
    to.write_all(&out[..printed])
}

fn main(rt: HostRuntime) -> io::Result<()> {
    let mut input = Vec::new(rt.alloc());
    rt.stdin().read_to_end(&mut input)?;
    let mut block: Option<&[u8]> = None;
    let mut lines = Vec::new(rt.alloc());
    let mut count = 0u64;
    for line in input.split_inclusive(|b| *b == b'\n') {
        if !line.starts_with(b"=") {
            lines.extend_from_slice(line)?;
            continue;
        }
        if let Some(first) = block {
            try_block(&rt, first, &lines)?;
        }
        block = Some(line);
        lines.clear();
        count = count.saturating_add(1);
    }
    if let Some(first) = block {
        try_block(&rt, first, &lines)?;
    }
    println!(rt; "{count} cases")
}
