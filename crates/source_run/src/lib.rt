// The call `run_source`, its tests and its preview: a text is read, and then run as it stands. The text and the store
// are copied into arrays for the run, which is then faster (source_values says why).
#![tactic(auto)]

ghost use Rattle.std.specs.Prelude.{◌≡◌, ◌≤◌, leb, length, if◌then◌else◌};
ghost use Rattle.base.specs.Answers.{gives, and_then};
ghost use Rattle.base.specs.Code.{told_run, run_answer, preview_answer};
ghost use Rattle.text.specs.Syntax.{Command};
ghost use Rattle.text.specs.Reading.{command, read_text};
ghost use Rattle.text.specs.Sizes.{sizes};
ghost use Rattle.text.specs.Code.{sizes_answer};
ghost use Rattle.text_ends.specs.Ends.{PartEnds, first};
ghost use Rattle.source.specs.Calls.{source_tests, run_source, preview_source};
ghost use Rattle.source_values.specs.Placed.{Read};
ghost use Rattle.source_run.specs.Code.{told, runs, Runs, Laid};

use base::{End, Ended, Preview, Reason, Refusal, VARIABLES, copy_over};
use source_commands::execute;
use text::Sizes;
use text_ends::{SHORT_TEXT, first_loop, note_ends};

// The call's tests, in order: 6, 1 to 5, 8. Where they are passed it gives the text's sizes.
pub fn test(text: &[u8], store: &[i32]) -> Result<Sizes, Refusal>
    ensures { sizes_answer result
        ≡ and_then (source_tests text.now store.now) (λ c. gives (sizes c)) }
{
    let sizes = text_read::read(text)?;
    if store.len() != VARIABLES {
        return Err(Reason::WrongLength.at(0));
    }
    Ok(sizes)
}

// The end, the count and the mark of a run, from the position after its command, or none where it was spent.
fn report(after: Option<usize>, budget: u32, left: u32, mark: usize) -> Ended
    requires { left ≤ budget }
    ensures { told_run result ≡ told after budget left mark }
{
    let end = match after {
        Some(_) => End::Done,
        None => End::Spent,
    };
    Ended {
        end,
        count: budget - left,
        mark,
    }
}

// ---- The run

// Under such a budget a part is passed over a few times at most.
const FEW_TICKS: u32 = 16;

// From where part ends are noted before the run: from the first loop on, and under few ticks nowhere.
fn noted_from(text: &[u8], budget: u32) -> usize
    ensures { result ≡ (if leb budget 16 then length text.now else first 0x04 text.now) }
{
    if budget <= FEW_TICKS {
        return text.len();
    }
    first_loop(text)
}

// Runs the command at the start of a text, on a store, with the ends of its parts in a cache.
fn run_command(
    text: &[u8; text::LONGEST],
    store: &mut [i32; VARIABLES],
    budget: u32,
    ends: &[u16],
) -> Ended
    requires read { Read (command text.now 64 0) }
    requires part_ends { PartEnds text.now ends.now }
    ensures { Runs text.now budget store.old (gives (told_run result), store.new) }
{
    let mut left = budget;
    let mut mark = 0;
    let after = execute(text, 0, text::DEEPEST, store, &mut left, &mut mark, ends);
    report(after, budget, left, mark)
}

// The same of a text in a buffer, with the ends of its parts from a position on noted first.
fn run_noted(
    text: &[u8],
    buffer: &[u8; text::LONGEST],
    store: &mut [i32; VARIABLES],
    budget: u32,
    from: usize,
    ends: &mut [u16],
) -> Ended
    requires laid { Laid text.now buffer.now }
    requires part_ends { PartEnds text.now ends.old }
    ensures { Runs buffer.now budget store.old (gives (told_run result), store.new) }
{
    note_ends(text, from, ends);
    run_command(buffer, store, budget, ends)
}

// The same, with a cache of N places.
fn run_cached<const N: usize>(
    text: &[u8],
    buffer: &[u8; text::LONGEST],
    store: &mut [i32; VARIABLES],
    budget: u32,
    from: usize,
) -> Ended
    requires no_longer { N ≤ 4096 }
    requires laid { Laid text.now buffer.now }
    ensures { Runs buffer.now budget store.old (gives (told_run result), store.new) }
{
    let mut ends = [0u16; N];
    run_noted(text, buffer, store, budget, from, &mut ends)
}

// Runs a text that passed the tests, on a store of its own. Before the first loop no part is passed over twice.
fn run_text(text: &[u8], store: &mut [i32; VARIABLES], budget: u32) -> Ended
    requires { (c : Command) × (read_text text.now ≡ gives c) }
    ensures { (c : Command) → read_text text.now ≡ gives c
        → (gives (told_run result), store.new) ≡ runs c budget store.old }
{
    let mut buffer = [0u8; text::LONGEST];
    copy_over(text, &mut buffer);
    let from = noted_from(text, budget);
    if from == text.len() {
        let nothing = [0u16; 1];
        return run_command(&buffer, store, budget, &nothing);
    }
    if text.len() <= SHORT_TEXT {
        return run_cached::<SHORT_TEXT>(text, &buffer, store, budget, from);
    }
    run_cached::<{ text::LONGEST }>(text, &buffer, store, budget, from)
}

// Runs a text on a store under a budget: the end, the count and the mark, and the store as it is left. It refuses 6, 1
// to 5, then 8, and the store then stays as it is.
pub fn run_source(text: &[u8], store: &mut [i32], budget: u32) -> Result<Ended, Refusal>
    ensures { (run_answer result, store.new)
        ≡ run_source text.now store.old budget }
{
    test(text, store)?;
    let mut cells = [0; VARIABLES];
    copy_over(store, &mut cells);
    let run = run_text(text, &mut cells, budget);
    copy_over(&cells, store);
    Ok(run)
}

// Runs a text on a copy of a store under a budget: the end, the count and the mark, and the store that the run would
// leave. It refuses as run_source does, and its store is then 64 zeros.
pub fn preview_source(text: &[u8], store: &[i32], budget: u32) -> Preview
    ensures answer { preview_answer result ≡ preview_source text.now store.now budget }
    ensures store_kept { store.exit.now ≡ store.entry.now }
{
    if let Err(refusal) = test(text, store) {
        return Preview::decline(refusal);
    }
    let mut cells = [0; VARIABLES];
    copy_over(store, &mut cells);
    Preview {
        run: Ok(run_text(text, &mut cells, budget)),
        store: cells,
    }
}
