// The call `preview_machine`: a loaded machine's run on a copy of its memory, read back over a copy of the store.
#![tactic(auto)]

ghost use Rattle.std.specs.Prelude.{◌≡◌, length};
ghost use Rattle.base.specs.Answers.{gives, and_then};
ghost use Rattle.base.specs.Code.{told_run, preview_answer, count_answer};
ghost use Rattle.fitting.specs.Calls.{preview_tests, preview_machine};

use base::{Ended, Preview, Reason, Refusal, VARIABLES, copy_over};
use machine_step::Machine;

// The preview's tests, in their order: 9, 8, 12, 10, 11. Gives the number of records.
pub fn test(
    code: &[u8],
    memory: &[i32],
    depth: u64,
    table: &[u8],
    store: &[i32],
) -> Result<usize, Refusal>
    ensures { count_answer result
        ≡ and_then (preview_tests code.now memory.now depth
        table.now store.now) (λ P. gives (length P)) }
{
    if !record_test::is_whole(code) {
        return Err(Reason::NotWhole.at(0));
    }
    let n = fitting_load::test_table(table, store)?;
    machine_run::test(code, memory, depth, n as u64)
}

// Runs tested code on a copy of the memory, and reads back over the store.
fn run_on_copy(
    code: &[u8],
    memory: &[i32],
    copy: &mut [i32],
    depth: usize,
    last: usize,
    table: &[u8],
    store: &mut [i32],
    budget: u32,
) -> Ended
    requires tested { and_then (preview_tests code.now memory.now depth table.now store.old) (λ P. gives (length P))
        ≡ gives last }
    requires memory_len { length memory.now ≡ length copy.old }
    ensures { (gives (told_run result), store.new)
        ≡ preview_machine code.now memory.now depth
        table.now store.old budget }
{
    copy_over(memory, copy);
    let ended = machine_run::run_tested(code, copy, depth, last, budget);
    fitting_load::to_store(table, copy, depth, store);
    ended
}

// What run_machine on a copy of the memory tells, with the table's n, and what read_back from there leaves of a copy of
// the store. It refuses 9, 8, 12, 10, 11, and its store is then 64 zeros.
pub fn preview_machine(
    code: &[u8],
    memory: &[i32],
    depth: u64,
    table: &[u8],
    store: &[i32],
    budget: u32,
) -> Preview
    ensures answer { preview_answer result
        ≡ preview_machine code.now memory.now depth
        table.now store.now budget }
    ensures lent_kept { (memory.exit.now ≡ memory.entry.now) × (store.exit.now ≡ store.entry.now) }
{
    match test(code, memory, depth, table, store) {
        Err(refusal) => Preview::decline(refusal),
        Ok(last) => {
            let mut copy = [0; Machine::MEMORY_CELLS];
            let mut cells = [0; VARIABLES];
            copy_over(store, &mut cells);
            let size = memory.len();
            let ended = run_on_copy(
                code,
                memory,
                &mut copy[..size],
                depth as usize,
                last,
                table,
                &mut cells,
                budget,
            );
            Preview {
                run: Ok(ended),
                store: cells,
            }
        }
    }
}
