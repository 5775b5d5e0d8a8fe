// The printing program: a profile's text on standard input, and what it is and does. What it prints is document 01's
// ("Profiles to hold it to"): the sizes, the records in assembly and machine code, and the run on the machine, from
// zeros.
#![tactic(auto)]

ghost use Rattle.std.specs.Prelude.{◌≤◌, length, IfOk};

use std::io;
use std::io::{Read, Write};

// Reads until the input ends, or until the buffer is full: how many bytes, at the start of the buffer.
fn read_input<R: Read>(from: &mut R, buffer: &mut [u8]) -> io::Result<usize>
    ensures { IfOk result (λ n. n ≤ length buffer.new) }
{
    let mut done = 0;
    // No `for`: how many turns there are is not known before.
    while done < buffer.len() {
        match from.read(&mut buffer[done..])? {
            0 => break,
            more => done += more,
        }
    }
    Ok(done)
}

// The system's words for an error, without the number that std prints behind them.
fn words(text: &str) -> &str {
    match text.split_once(" (os error ") {
        Some((words, _)) => words,
        None => text,
    }
}

// Prints on standard error what failed, and why; where that cannot be printed either, nothing.
fn report(rt: &HostRuntime, what: &str, error: &io::Error) {
    if let Ok(text) = format!(in rt.alloc(); "{error}") {
        let why = words(&text);
        let _ = eprintln!(rt; "show: {what}: {why}");
    }
}

// One byte more than the longest text: where all of them are read, the text is too long, however long it is.
const INPUT_BYTES: usize = text::LONGEST + 1;

fn main(rt: HostRuntime) {
    let mut text = [0u8; INPUT_BYTES];
    let length = match read_input(&mut rt.reader(), &mut text) {
        Ok(length) => length,
        Err(error) => return report(&rt, "cannot read standard input", &error),
    };
    let mut out = print_render::output_buffer();
    let size = print_render::render(&text[..length], &mut out);
    if let Err(error) = io::writer(&rt).write_all(&out[..size]) {
        report(&rt, "cannot write to standard output", &error);
    }
}
