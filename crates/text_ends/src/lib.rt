// Where the parts of a text end: found construct by construct, or looked up in a cache of what was worked out before.
#![tactic(auto)]

ghost use Rattle.std.specs.Prelude.{◌≡◌, ℕ, ◌≤◌, ◌<◌, length, get_or, IfSome};
ghost use Rattle.text_ends.specs.Ends.{Row, known, noted, PartEnds, times, first};

use text_shape::{
    ASSIGN, BC, CONSTANT, IF, NOT, ONE_BYTE_CONSTANT, SKIP, VARIABLE, WHILE, constant_width,
};

// ---- A cache of part ends. An entry of 0 says nothing: as an `Option` it would take twice the room, and each run
// clears its cache first.

// Texts of up to so many bytes have a cache of this length, longer ones one of `text::LONGEST`: each call clears its
// own.
pub const SHORT_TEXT: usize = 256;

// What a cache knows at a position.
pub fn recall(cache: &[u16], at: usize) -> Option<usize>
    ensures { result ≡ known (get_or cache.now at 0) }
{
    let end = *cache.get(at)?;
    (end != 0).then_some(usize::from(end))
}

// Notes a value at a position, where there is room for it.
pub fn remember(cache: &mut [u16], at: usize, value: usize)
    ensures { cache.new ≡ noted cache.old at value }
{
    if at < cache.len()
        && let Ok(value) = u16::try_from(value)
    {
        cache[at] = value;
    }
}

// ---- Where a part ends

// The position after the part at a position, of any kind. It goes construct by construct: past the bytes of each, with
// the number of parts that are due after them.
fn scan_end(text: &[u8], start: usize) -> usize
    requires { (end : ℕ) × Row text.now start 1 end }
    ensures { Row text.now start 1 result }
{
    let mut at = start;
    let mut due: usize = 1;
    while due != 0 {
        let op = text[at];
        match op {
            SKIP => {
                at += 1;
                due -= 1;
            }
            ASSIGN => at += 2,
            IF => {
                at += 1;
                due += 2;
            }
            CONSTANT | ONE_BYTE_CONSTANT => {
                at += 1 + constant_width(op);
                due -= 1;
            }
            VARIABLE | BC => {
                at += 2;
                due -= 1;
            }
            NOT => at += 1,
            // those of two parts
            _ => {
                at += 1;
                due += 1;
            }
        }
    }
    at
}

// The same, looked up where it is known.
pub fn part_end(text: &[u8], start: usize, ends: &[u16]) -> usize
    requires row { (end : ℕ) × Row text.now start 1 end }
    requires part_ends { PartEnds text.now ends.now }
    ensures { Row text.now start 1 result }
{
    match recall(ends, start) {
        Some(end) => end,
        None => scan_end(text, start),
    }
}

// A position, if it is inside the text or at its end.
fn inside(text: &[u8], at: usize) -> Option<usize>
    ensures { IfSome result (λ end. (end ≡ at) × (at ≤ length text.now)) }
{
    (at <= text.len()).then_some(at)
}

// The position after the part at a position, by a cache of the ends of the parts behind it, if that knows enough.
fn end_at(text: &[u8], at: usize, ends: &[u16]) -> Option<usize>
    requires at_in_bounds { at < length text.now }
    requires part_ends { PartEnds text.now ends.now }
    ensures { IfSome result (Row text.now at 1) }
{
    let op = text[at];
    match op {
        SKIP => Some(at + 1),
        ASSIGN => recall(ends, at + 2),
        IF => recall(ends, recall(ends, recall(ends, at + 1)?)?),
        CONSTANT | ONE_BYTE_CONSTANT => inside(text, at + 1 + constant_width(op)),
        VARIABLE | BC => inside(text, at + 2),
        NOT => recall(ends, at + 1),
        // those of two parts
        _ => recall(ends, recall(ends, at + 1)?),
    }
}

// Notes the end of each part from a position on, from the text's last byte back. (Bytes inside a construct are taken
// for the first of one too: nobody looks those up.)
pub fn note_ends(text: &[u8], from: usize, ends: &mut [u16])
    requires part_ends { PartEnds text.now ends.old }
    ensures { PartEnds text.now ends.new }
{
    for at in (from..text.len()).rev() {
        if let Some(end) = end_at(text, at, ends) {
            remember(ends, at, end);
        }
    }
}

// How many bytes of a text are WHILE's. (It looks at all of them, several at a time as it is compiled. A chain of
// `filter` and `count` is compiled to look at one at a time, and takes half as long again.)
fn loop_bytes(text: &[u8]) -> usize
    ensures { result ≡ times 0x04 text.now }
{
    let mut found = 0;
    for byte in text {
        if *byte == WHILE {
            found += 1;
        }
    }
    found
}

// Where the first byte stands that is WHILE's, or the text's length. No part before it is passed over twice.
pub fn first_loop(text: &[u8]) -> usize
    ensures { result ≡ first 0x04 text.now }
{
    if loop_bytes(text) == 0 {
        return text.len();
    }
    text.iter()
        .position(|byte| *byte == WHILE)
        .unwrap_or(text.len())
}
