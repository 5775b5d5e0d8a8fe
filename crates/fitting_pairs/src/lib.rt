// Two rows of two calls on lent buffers, with what the claims say of them.
#![tactic(auto)]

ghost use Rattle.std.specs.Prelude.{◌≡◌, ℕ, ◌≤◌, ◌*◌, List, length, take};
ghost use Rattle.base.specs.Answers.{Answer, gives};
ghost use Rattle.base.specs.Code.{run_answer, count_answer};
ghost use Rattle.text.specs.Syntax.{Command};
ghost use Rattle.text.specs.Reading.{read_text};
ghost use Rattle.text.specs.Sizes.{records, depth};
ghost use Rattle.source.specs.Calls.{run_source};
ghost use Rattle.machine.specs.Calls.{run_assembly};
ghost use Rattle.compile.specs.Calls.{assemble, go_back};
ghost use Rattle.fitting.specs.Rows.{assembly_buffers, assemble_and_run, back_buffers, compile_and_go_back};

use base::{Ended, Refusal};
use record::RECORD_BYTES;

// Runs the first records of the code.
fn run_records(
    code: &[u8],
    count: usize,
    store: &mut [i32],
    stack: &mut [i32],
    budget: u32,
) -> Result<Ended, Refusal>
    requires { 5 * count ≤ length code.now }
    ensures { (run_answer result, record { stack = stack.new; store = store.new })
        ≡ run_assembly (take (5 * count) code.now)
        (record { stack = stack.old; store = store.old }) budget }
{
    let size = RECORD_BYTES * count;
    assembly_run::run_assembly(&code[..size], store, stack, budget)
}

// Assembles a text and runs the records written. For an accepted text, with room for its records, a stack of D cells
// and a store of 64, the answer and the store are those of run_source.
pub fn assemble_and_run(
    text: &[u8],
    code: &mut [u8],
    store: &mut [i32],
    stack: &mut [i32],
    budget: u32,
) -> Result<Ended, Refusal>
    ensures row { (
      run_answer result,
      assembly_buffers code.new (record { stack = stack.new; store = store.new }),
    )
        ≡ assemble_and_run text.now
        (assembly_buffers code.old (record { stack = stack.old; store = store.old }))
        budget }
    ensures of_accepted { (c : Command) → read_text text.now ≡ gives c
        → 5 * records c ≤ length code.old
        → length stack.old ≡ depth c → length store.old ≡ 64
        → run_source text.now store.old budget ≡ (run_answer result, store.new) }
{
    let sizes = compile_assembly::assemble(text, code)?;
    run_records(code, sizes.records, store, stack, budget)
}

// Goes back from the first records of the code.
fn go_back_from(code: &[u8], count: usize, table: &[u8], out: &mut [u8]) -> Result<usize, Refusal>
    requires { 5 * count ≤ length code.now }
    ensures { (count_answer result, out.new)
        ≡ go_back (take (5 * count) code.now) table.now out.old }
{
    let size = RECORD_BYTES * count;
    compile_back::go_back(&code[..size], table, out)
}

// Compiles a text and goes back from the records and the table written. For an accepted text and buffers with room, the
// answer is the record count, and the output is what assemble leaves in it.
pub fn compile_and_go_back(
    text: &[u8],
    code: &mut [u8],
    table: &mut [u8],
    out: &mut [u8],
) -> Result<usize, Refusal>
    ensures row { (count_answer result, back_buffers code.new table.new out.new)
        ≡ compile_and_go_back text.now
        (back_buffers code.old table.old out.old) }
    ensures of_accepted { (c : Command) → read_text text.now ≡ gives c
        → length table.old ≡ 64 → 5 * records c ≤ length code.old
        → 5 * records c ≤ length out.old
        → ◌≡◌ {A = Answer ℕ × List ℕ} (count_answer result, out.new)
        (gives (records c), (assemble text.now out.old).1) }
{
    let sizes = compile_machine::compile(text, code, table)?;
    go_back_from(code, sizes.records, table, out)
}
