// The four calls of demand 3 in a row: compile, load, run, read back.
#![tactic(auto)]

ghost use Rattle.std.specs.Prelude.{◌≡◌, ◌*◌, ◌≤◌, length};
ghost use Rattle.base.specs.Answers.{gives};
ghost use Rattle.base.specs.Code.{run_answer};
ghost use Rattle.base.specs.Rows.{answered};
ghost use Rattle.text.specs.Syntax.{Command};
ghost use Rattle.text.specs.Reading.{read_text};
ghost use Rattle.source.specs.Calls.{run_source};
ghost use Rattle.fitting.specs.Rows.{buffers, load_run_read, fit};
ghost use Rattle.fitting.specs.Demand3.{Ready};
ghost use Rattle.fitting_row.specs.Rests.{from_running};

use base::{Ended, Refusal};
use record::RECORD_BYTES;
use text::Sizes;

// Runs the records written, from a fresh machine, and reads back into the store.
fn run_and_read_back(
    code: &[u8],
    table: &[u8],
    memory: &mut [i32],
    store: &mut [i32],
    sizes: Sizes,
    budget: u32,
) -> Result<Ended, Refusal>
    requires { 5 * sizes.records ≤ length code.now }
    ensures { (
      run_answer result,
      buffers code.now table.now memory.new store.new,
    )
        ≡ answered (from_running sizes budget
        (buffers code.now table.now memory.old store.old)) }
{
    let size = RECORD_BYTES * sizes.records;
    let depth = sizes.depth as u64;
    let cells = sizes.cells as u64;
    let piece = machine_run::run_machine(&code[..size], memory, depth, cells, budget)?;
    fitting_load::read_back(table, memory, depth, store)?;
    Ok(piece.without_state())
}

// Loads the store, whatever the memory held, and goes on.
fn load_and_run(
    code: &[u8],
    table: &[u8],
    memory: &mut [i32],
    store: &mut [i32],
    sizes: Sizes,
    budget: u32,
) -> Result<Ended, Refusal>
    requires { 5 * sizes.records ≤ length code.now }
    ensures { (
      run_answer result,
      buffers code.now table.now memory.new store.new,
    )
        ≡ answered (load_run_read sizes budget
        (buffers code.now table.now memory.old store.old)) }
{
    fitting_load::load(table, store, sizes.depth as u64, memory)?;
    run_and_read_back(code, table, memory, store, sizes, budget)
}

// The four calls in a row on lent buffers: compiles the text, loads the store, runs the records written from a fresh
// machine, and reads back into the store. A call that declines ends the row. For an accepted text and buffers of the
// right lengths none declines, and the answer and the store are those of run_source (demand 3).
pub fn fit(
    text: &[u8],
    code: &mut [u8],
    table: &mut [u8],
    memory: &mut [i32],
    store: &mut [i32],
    budget: u32,
) -> Result<Ended, Refusal>
    ensures row { (
      run_answer result,
      buffers code.new table.new memory.new store.new,
    )
        ≡ fit text.now
        (buffers code.old table.old memory.old store.old) budget }
    ensures of_accepted { (c : Command) → read_text text.now ≡ gives c
        → Ready c (record { code = code.old; table = table.old })
        memory.old store.old
        → run_source text.now store.old budget ≡ (run_answer result, store.new) }
{
    let sizes = compile_machine::compile(text, code, table)?;
    load_and_run(code, table, memory, store, sizes, budget)
}
