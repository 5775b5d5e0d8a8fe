// The executor of machine code: the calls `run_machine` and `go_on`, and their tests. The stack and the variables are
// cells of one lent slice. A call tests what it is given, then steps until the run ends, from a fresh machine or from
// the state of a paused run.
#![tactic(auto)]

ghost use Rattle.std.specs.Prelude.{◌≡◌, ◌&&◌, ℕ, ◌+◌, ◌≤◌, leb, eqb, length};
ghost use Rattle.base.specs.Answers.{gives, and_then};
ghost use Rattle.base.specs.Code.{told_run, count_answer};
ghost use Rattle.machine.specs.Calls.{machine_tests, state_fits, state_tests, go_on, run_machine, without_state};
ghost use Rattle.machine.specs.Code.{told_piece, piece_answer};
ghost use Rattle.machine_run.specs.Runs.{Tested, TestedState};

use base::{Ended, Reason, Refusal};
use machine::{Piece, State};
use machine_cells::{Downward, Limits};
use machine_step::Machine;

// Refusal 11's test: D and n at most 64, and D + 1 + n cells.
fn memory_fits(length: usize, depth: u64, cells: u64) -> bool
    ensures { result ≡ leb depth 64 && (leb cells 64 && eqb length (depth + 1 + cells)) }
{
    depth <= Machine::STACK_CELLS as u64
        && cells <= Machine::VARIABLES as u64
        && length == depth as usize + 1 + cells as usize
}

// The tests of a call on machine code, in the document's order: refusals 9, 10, 11. Gives the number of records.
pub fn test(code: &[u8], memory: &[i32], depth: u64, cells: u64) -> Result<usize, Refusal>
    ensures { count_answer result
        ≡ and_then (machine_tests code.now memory.now depth cells) (λ P. gives (length P)) }
{
    record_test::test_machine(code, cells, memory_fits(memory.len(), depth, cells))
}

// Refusal 15's test: a position up to the end, a stack size up to the mark, a mark up to D, and a count that with the
// budget stays within 32 bits.
fn state_fits(state: State, last: usize, depth: u64, budget: u32) -> bool
    ensures { result ≡ state_fits state last depth budget }
{
    state.position <= last
        && state.size <= state.mark
        && state.mark as u64 <= depth
        && u64::from(state.count) + u64::from(budget) <= Machine::GREATEST_COUNT
}

// The tests of a call from a state, in the document's order: refusals 9, 10, 11, 15. Gives the number of records.
pub fn test_state(
    code: &[u8],
    memory: &[i32],
    depth: u64,
    cells: u64,
    state: State,
    budget: u32,
) -> Result<usize, Refusal>
    ensures { count_answer result
        ≡ and_then (state_tests code.now memory.now depth cells state budget)
        (λ P. gives (length P)) }
{
    let last = test(code, memory, depth, cells)?;
    if !state_fits(state, last, depth, budget) {
        return Err(Reason::WrongState.at(0));
    }
    Ok(last)
}

// Runs the `last` records of code that passed the tests, from a state that passed them with a budget. `limit` is the
// state's count and the budget together.
fn run_from(
    code: &[u8],
    memory: &mut [i32],
    depth: usize,
    last: usize,
    state: State,
    limit: u32,
) -> Piece
    requires { (n : ℕ) × (budget : ℕ) × TestedState code.now memory.old depth n state budget limit last }
    ensures { (n budget : ℕ)
        → TestedState code.now memory.old depth n state budget limit last
        → (gives (told_piece result), memory.new)
        ≡ go_on code.now memory.old depth n state budget }
{
    let layout = Downward { depth };
    let limits = Limits { layout, last };
    Machine::resumed(state)
        .finish(code, &mut [], memory, limits, limit)
        .piece()
}

// Runs the `last` records of code that passed the tests, from a fresh machine.
pub fn run_tested(code: &[u8], memory: &mut [i32], depth: usize, last: usize, budget: u32) -> Ended
    requires { (n : ℕ) × Tested code.now memory.old depth n last }
    ensures { (n : ℕ) → Tested code.now memory.old depth n last
        → (gives (told_run result), memory.new)
        ≡ without_state (run_machine code.now memory.old depth n budget) }
{
    run_from(code, memory, depth, last, State::fresh(), budget).without_state()
}

// Runs machine code on from the state of a paused run, over the memory as that run left it, with D = `depth` stack
// cells and n = `cells` addresses; the budget counts from the pause. A state that is made up and fits is run as well.
// Refuses 9, 10, 11, 15, and then leaves the memory untouched.
pub fn go_on(
    code: &[u8],
    memory: &mut [i32],
    depth: u64,
    cells: u64,
    state: State,
    budget: u32,
) -> Result<Piece, Refusal>
    ensures { (piece_answer result, memory.new)
        ≡ go_on code.now memory.old depth cells state budget }
{
    let last = test_state(code, memory, depth, cells, state, budget)?;
    let limit = state.count + budget;
    Ok(run_from(code, memory, depth as usize, last, state, limit))
}

// Runs machine code from a fresh machine, over memory with D = `depth` stack cells and n = `cells` addresses.
// Refuses 9, 10, 11, and then leaves the memory untouched.
pub fn run_machine(
    code: &[u8],
    memory: &mut [i32],
    depth: u64,
    cells: u64,
    budget: u32,
) -> Result<Piece, Refusal>
    ensures { (piece_answer result, memory.new)
        ≡ run_machine code.now memory.old depth cells budget }
{
    go_on(code, memory, depth, cells, State::fresh(), budget)
}
