// Reading a text whole: the call `read`.
#![tactic(auto)]

ghost use Rattle.std.specs.Prelude.{◌≡◌, length};
ghost use Rattle.text.specs.Sizes.{how_many};
ghost use Rattle.text.specs.Calls.{read_call};
ghost use Rattle.text.specs.Code.{sizes_answer};
ghost use Rattle.text_read.specs.Noted.{noted};

use base::{Reason, Refusal, VARIABLES};
use text::Sizes;
use text_commands::command;
use text_conditions::PartReading;

// How many variables are noted as named.
fn count_named(named: &[u8]) -> usize
    ensures { result ≡ how_many (noted named.now) (length named.now) }
{
    let mut n = 0;
    for note in named {
        if *note == 1 {
            n += 1;
        }
    }
    n
}

// Reads a text: its sizes, or its refusal.
pub fn read(text: &[u8]) -> Result<Sizes, Refusal>
    ensures { sizes_answer result ≡ read_call text.now }
{
    if text::LONGEST < text.len() {
        return Err(Reason::TooLong.at(0));
    }
    let mut named = [0u8; VARIABLES];
    match command(text, 0, text::DEEPEST, &mut named) {
        PartReading::Refused { reason, place } => Err(reason.at(place)),
        PartReading::Read { next, .. } if next < text.len() => Err(Reason::LeftOver.at(next)),
        PartReading::Read { records, depth, .. } => Ok(Sizes {
            records: usize::from(records),
            depth: usize::from(depth),
            cells: count_named(&named),
        }),
    }
}
