// The bytes of a text, from standard input or a file.
use anyhow::Context;
use std::fs::File;
use std::io::Read;
use text::LONGEST_TEXT;

// One byte more than a text may have: a longer file is refused, so the rest of it need not be read.
const ENOUGH: u64 = LONGEST_TEXT as u64 + 1;

// What standard input has, to its end.
pub fn read_input(rt: &HostRuntime) -> anyhow::Result<Vec<u8>> {
    let mut bytes = Vec::new(rt.alloc());
    rt.stdin().read_to_end(&mut bytes)?;
    Ok(bytes)
}

// What a file has, or a message with its path.
pub fn read_file(rt: &HostRuntime, path: &str) -> anyhow::Result<Vec<u8>> {
    let mut bytes = Vec::new(rt.alloc());
    let file = File::open(rt, path).context(format_args!("cannot open {path}"))?;
    file.take(ENOUGH)
        .read_to_end(&mut bytes)
        .context(format_args!("cannot read {path}"))?;
    Ok(bytes)
}
