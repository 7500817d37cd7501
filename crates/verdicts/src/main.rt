// Reads a table of patch texts, one on each line with its name before it, and prints the verdict on each: what reading it
// answers, once the check for C has said the same, and an accepted text has been written again byte for byte.
#![tactic(auto)]

use patch::patch_check;
use reader::read::read;
use sheet::sheet::Sheet;
use std::alloc::{AllocError, Global};
use std::iter;
use unit::refusal::TextFault;
use writer::write::write;

// In the table `/` stands for a line feed, `^` for a carriage return, and `{N*S}` for N times the byte S.
#[derive(Clone, Copy, PartialEq, Eq, Debug)]
enum State {
    Plain,
    Count(usize),
    Repeat(usize),
}

fn plain(byte: u8) -> u8 {
    match byte {
        b'/' => b'\n',
        b'^' => b'\r',
        _ => byte,
    }
}

fn next(state: State, byte: u8) -> State {
    match (state, byte) {
        (State::Plain, b'{') => State::Count(0),
        (State::Count(n), b'0'..=b'9') => State::Count(
            n.saturating_mul(10)
                .saturating_add(usize::from(byte - b'0')),
        ),
        (State::Count(n), b'*') => State::Repeat(n),
        (State::Repeat(_), b'}') => State::Plain,
        (state, _) => state,
    }
}

// How often the byte stands in the text.
fn times(state: State, byte: u8) -> usize {
    match state {
        State::Plain if byte != b'{' => 1,
        State::Repeat(n) if byte != b'}' => n,
        _ => 0,
    }
}

fn expanded(heap: Global, line: &[u8]) -> Result<Vec<u8>, AllocError> {
    let mut text = Vec::new(heap);
    let mut state = State::Plain;
    for &byte in line {
        // pushed where it stands once, as most bytes do: `extend` by one takes longer
        match times(state, byte) {
            1 => text.push(plain(byte))?,
            n => text.extend(iter::repeat_n(plain(byte), n))?,
        }
        state = next(state, byte);
    }
    Ok(text)
}

// Packed here again, so that the table does not lean on what it tries.
fn packed(fault: TextFault) -> u32 {
    u32::from(u8::from(fault.refusal)) * 65536 + u32::from(fault.line)
}

fn verdict(heap: Global, text: &[u8]) -> Result<String, AllocError> {
    let mut sheet = Sheet::blank();
    let checked = patch_check(text);
    match read(text, &mut sheet) {
        Err(fault) => {
            if packed(fault) != checked {
                return format!(in heap; "the check says {checked}");
            }
            format!(in heap; "refusal {} line {}", u8::from(fault.refusal), fault.line)
        }
        Ok(()) => {
            if checked != 0 {
                return format!(in heap; "the check says {checked}");
            }
            let mut buffer = [0u8; 8192];
            match write(&sheet, &mut buffer) {
                Ok(n) if buffer.get(..n) == Some(text) => format!(in heap; "accepted"),
                _ => format!(in heap; "written otherwise"),
            }
        }
    }
}

fn main(rt: HostRuntime) -> anyhow::Result<()> {
    let heap = rt.alloc();
    for line in rt.lines(heap) {
        let line = line?;
        let Some((name, text)) = line.as_str().split_once(": ") else {
            continue;
        };
        let text = expanded(heap, text.as_bytes())?;
        let answer = verdict(heap, text.as_slice())?;
        println!(rt; "{name}: {answer}")?;
    }
    Ok(())
}
