// The calls `load` and `read_back`: a store into the machine's memory, and back.
// What they are lent stays apart (table, store, depth, memory), as C lends it.
#![tactic(auto)]

ghost use Rattle.std.specs.Prelude.{◌≡◌, pos, length, replicate};
ghost use Rattle.base.specs.Code.{count_answer};
ghost use Rattle.fitting.specs.Loading as Loading;
ghost use Rattle.fitting.specs.Calls as Calls;
ghost use Rattle.fitting_load.specs.Fits.{Fits};

use base::{Reason, Refusal, VARIABLES};
use machine_step::Machine;
use record::Variable;

// The tests of a table and a store, in their order: 8, 12. Gives the table's n.
pub fn test_table(table: &[u8], store: &[i32]) -> Result<usize, Refusal>
    ensures { count_answer result ≡ Calls.table_tests table.now store.now }
{
    if table.len() != compile::TABLE_BYTES {
        return Err(Reason::WrongLength.at(0));
    }
    if store.len() != VARIABLES {
        return Err(Reason::WrongLength.at(0));
    }
    compile_table::names(table).ok_or(Reason::NoTable.at(0))
}

// The tests of both calls in their order: 8, 12, 11. Gives n.
pub fn test(table: &[u8], store: &[i32], depth: u64, memory: &[i32]) -> Result<usize, Refusal>
    ensures { count_answer result
        ≡ Calls.pod_tests table.now store.now depth memory.now }
{
    let n = test_table(table, store)?;
    if (Machine::STACK_CELLS as u64) < depth {
        return Err(Reason::WrongMemory.at(0));
    }
    if memory.len() != (depth as usize) + 1 + n {
        return Err(Reason::WrongMemory.at(0));
    }
    Ok(n)
}

// Each named variable at its address.
pub fn to_memory(table: &[u8], store: &[i32], depth: usize, memory: &mut [i32])
    requires { Fits table.now store.now depth memory.old }
    ensures { memory.new
        ≡ Loading.fill table.now depth store.now memory.old }
{
    for v in (0..VARIABLES).rev() {
        if let Some(address) = compile_table::address_of(table, Variable(v)) {
            memory[depth + address.0] = store[v];
        }
    }
}

// Each named variable from its address.
pub fn to_store(table: &[u8], memory: &[i32], depth: usize, store: &mut [i32])
    requires { Fits table.now store.old depth memory.now }
    ensures { store.new
        ≡ Loading.read_back table.now depth store.old memory.now }
{
    for v in 0..VARIABLES {
        if let Some(address) = compile_table::address_of(table, Variable(v)) {
            store[v] = memory[depth + address.0];
        }
    }
}

// Puts each named variable of a store at its address and 0 elsewhere; gives n. Refusals 8, 12, 11.
pub fn load(table: &[u8], store: &[i32], depth: u64, memory: &mut [i32]) -> Result<usize, Refusal>
    ensures { (count_answer result, memory.new)
        ≡ Calls.load table.now store.now depth memory.old }
{
    let n = test(table, store, depth, memory)?;
    memory.fill(0);
    to_memory(table, store, depth as usize, memory);
    Ok(n)
}

// Sets each named variable of a store to what its address holds; gives n. Refusals 8, 12, 11.
pub fn read_back(
    table: &[u8],
    memory: &[i32],
    depth: u64,
    store: &mut [i32],
) -> Result<usize, Refusal>
    ensures { (count_answer result, store.new)
        ≡ Calls.read_back_call table.now memory.now depth store.old }
{
    let n = test(table, store, depth, memory)?;
    to_store(table, memory, depth as usize, store);
    Ok(n)
}
