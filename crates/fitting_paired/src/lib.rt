// The call `run_paired`: code and its table are tested against each other, the store loaded, the code run, the store
// read back. The memory is the call's own, and the machine fresh.
#![tactic(auto)]

ghost use Rattle.std.specs.Prelude.{◌≡◌, true, List, ℕ, ◌+◌, ◌≤◌, pos, replicate};
ghost use Rattle.base.specs.Answers.{gives};
ghost use Rattle.base.specs.Code.{told_run, run_answer};
ghost use Rattle.text.specs.Code.{sizes_answer};
ghost use Rattle.source.specs.Calls.{run_source};
ghost use Rattle.record.specs.Bytes.{whole_records};
ghost use Rattle.fitting.specs.Paired.{pair_tests, paired_tests, run_paired, ByCompiler};

use base::{Ended, Reason, Refusal};
use machine_step::Machine;
use text::Sizes;

// The tests of whole records with the table's n, in their order: 10, 14, 11. Gives the record count, D and n.
fn test_pair(code: &[u8], n: usize, depth: u64) -> Result<Sizes, Refusal>
    requires { (whole_records code.now ≡ true) × (n ≤ 64) }
    ensures { sizes_answer result ≡ pair_tests code.now n depth }
{
    let count = record_test::test_machine(code, n as u64, true)?;
    if !compile_table::agrees(code, count, n) {
        return Err(Reason::NoPair.at(0));
    }
    if (Machine::STACK_CELLS as u64) < depth {
        return Err(Reason::WrongMemory.at(0));
    }
    Ok(Sizes {
        records: count,
        depth: depth as usize,
        cells: n,
    })
}

// The call's tests, in their order: 9, 8, 12, 10, 14, 11. Gives the record count, D and n.
pub fn test(code: &[u8], table: &[u8], store: &[i32], depth: u64) -> Result<Sizes, Refusal>
    ensures { sizes_answer result
        ≡ paired_tests code.now table.now store.now depth }
{
    if !record_test::is_whole(code) {
        return Err(Reason::NotWhole.at(0));
    }
    let n = fitting_load::test_table(table, store)?;
    test_pair(code, n, depth)
}

// Loads the store into zeros, runs tested code from a fresh machine, and reads back, whatever the end.
fn load_run_read(
    code: &[u8],
    table: &[u8],
    store: &mut [i32],
    memory: &mut [i32],
    sizes: Sizes,
    budget: u32,
) -> Ended
    requires tested { paired_tests code.now table.now store.old sizes.depth ≡ gives sizes }
    requires memory_zeros { memory.old ≡ replicate (sizes.depth + 1 + sizes.cells) (pos 0) }
    ensures { (gives (told_run result), store.new)
        ≡ run_paired code.now table.now store.old sizes.depth budget }
{
    let depth = sizes.depth;
    fitting_load::to_memory(table, store, depth, memory);
    let ended = machine_run::run_tested(code, memory, depth, sizes.records, budget);
    fitting_load::to_store(table, memory, depth, store);
    ended
}

// Tests that the table's n and the addresses in the code agree, loads the store into a memory of its own, runs the code
// from a fresh machine with D = `depth`, and reads back into the store, whatever the end. Refuses 9, 8, 12, 10, 14, 11
// (D above 64). Given what compile wrote of a text and the D that it gave, the answer and the store are those of
// run_source (demand 3).
pub fn run_paired(
    code: &[u8],
    table: &[u8],
    store: &mut [i32],
    depth: u64,
    budget: u32,
) -> Result<Ended, Refusal>
    ensures store_after { (run_answer result, store.new)
        ≡ run_paired code.now table.now store.old depth budget }
    ensures of_compiled { (text : List ℕ) → ByCompiler text code.now table.now depth
        → run_source text store.old budget ≡ (run_answer result, store.new) }
{
    let sizes = test(code, table, store, depth)?;
    let mut memory = [0; Machine::MEMORY_CELLS];
    let size = sizes.depth + 1 + sizes.cells;
    Ok(load_run_read(code, table, store, &mut memory[..size], sizes, budget))
}
