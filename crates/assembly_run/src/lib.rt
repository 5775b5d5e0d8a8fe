// The executor of assembly: the call `run_assembly` and its tests. The stack is a lent slice, bottom first,
// the variables a lent store. The call tests what it is given, then steps until the run ends.
#![tactic(auto)]

ghost use Rattle.std.specs.Prelude.{◌≡◌, length};
ghost use Rattle.base.specs.Answers.{gives, and_then};
ghost use Rattle.base.specs.Code.{run_answer, count_answer};
ghost use Rattle.machine.specs.Calls.{assembly_tests, run_assembly};
ghost use Rattle.machine_step.specs.Steps.{assembly_of};

use base::{Ended, Reason, Refusal};
use machine_cells::{Limits, Upward};
use machine_step::Machine;
use record_test::Kind;

// The tests of a call on assembly, in the document's order: refusals 9, 8, 10, 11. Gives the number of records.
// (Machine code's are no twin: they refuse other numbers, in another order.)
pub fn test(code: &[u8], store: &[i32], stack: &[i32]) -> Result<usize, Refusal>
    ensures { count_answer result
        ≡ and_then (assembly_tests code.now (assembly_of store.now stack.now))
        (λ P. gives (length P)) }
{
    if !record_test::is_whole(code) {
        return Err(Reason::NotWhole.at(0));
    }
    if store.len() != Machine::VARIABLES {
        return Err(Reason::WrongLength.at(0));
    }
    let last = code.len() / record::RECORD_BYTES;
    if let Some(place) = Kind::assembly().mismatch(code, last) {
        return Err(Reason::NoRecord.at(place));
    }
    if Machine::STACK_CELLS < stack.len() {
        return Err(Reason::WrongMemory.at(0));
    }
    Ok(last)
}

// Runs assembly from a fresh machine, over a store of 64 cells and a stack of D, its length.
// Refuses 9, 8, 10, 11, and then leaves both untouched.
pub fn run_assembly(
    code: &[u8],
    store: &mut [i32],
    stack: &mut [i32],
    budget: u32,
) -> Result<Ended, Refusal>
    ensures { (run_answer result, record { stack = stack.new; store = store.new })
        ≡ run_assembly code.now
        (record { stack = stack.old; store = store.old }) budget }
{
    let last = test(code, store, stack)?;
    let layout = Upward { depth: stack.len() };
    let limits = Limits { layout, last };
    Ok(
        Machine::fresh()
            .finish(code, store, stack, limits, budget)
            .answer(),
    )
}
