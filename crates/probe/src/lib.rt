// Calls for tests only, whose answers are one number, so that programs in other languages can compare them. No part of
// the product; `examples/pieces.c` uses it, since the pod's library has no call that runs. What each answers is said by
// the contract of its call and by that of the function that packs it.
#![tactic(auto)]

use base::{Preview, Refusal};
use machine::{Piece, State};

#[unsafe(no_mangle)]
pub extern "C" fn probe_run_source(text: &[u8], store: &mut [i32], budget: u32) -> u64 {
    pod_packing::pack_run(source_run::run_source(text, store, budget))
}

#[unsafe(no_mangle)]
pub extern "C" fn probe_assemble(text: &[u8], out: &mut [u8]) -> u64 {
    pod_packing::pack_sizes(compile_assembly::assemble(text, out))
}

#[unsafe(no_mangle)]
pub extern "C" fn probe_run_assembly(
    code: &[u8],
    store: &mut [i32],
    stack: &mut [i32],
    budget: u32,
) -> u64 {
    pod_packing::pack_run(assembly_run::run_assembly(code, store, stack, budget))
}

#[unsafe(no_mangle)]
pub extern "C" fn probe_load(table: &[u8], store: &[i32], depth: u64, memory: &mut [i32]) -> u64 {
    pod_packing::pack_count(fitting_load::load(table, store, depth, memory))
}

// The state in seven words: position, stack size, count, mark, and three that are not looked at. Of another number of
// words, a state that is refused.
fn state_of(words: &[u32]) -> State {
    match *words {
        [position, size, count, mark, _, _, _] => State {
            position: position as usize,
            size: size as usize,
            count,
            mark: mark as usize,
        },
        _ => State {
            size: 1,
            ..State::fresh()
        },
    }
}

// The lowest 32 bits of a number.
fn word(number: usize) -> u32 {
    (number & 0xffff_ffff) as u32
}

// A state in seven words, of which the last three are 0; another number of words stays as it is.
fn put_state(state: State, words: &mut [u32]) {
    let state = [
        word(state.position),
        word(state.size),
        state.count,
        word(state.mark),
        0,
        0,
        0,
    ];
    if words.len() == state.len() {
        words.copy_from_slice(&state);
    }
}

// The answer of a call that runs machine code as one number, and its state in the lent words, if it is spent.
fn put_piece(piece: Result<Piece, Refusal>, words: &mut [u32]) -> u64 {
    if let Ok(Piece::Paused(state)) = piece {
        put_state(state, words);
    }
    pod_packing::pack_run(piece.map(Piece::without_state))
}

#[unsafe(no_mangle)]
pub extern "C" fn probe_run_machine(
    code: &[u8],
    memory: &mut [i32],
    depth: u64,
    cells: u64,
    budget: u32,
    state: &mut [u32],
) -> u64 {
    put_piece(
        machine_run::run_machine(code, memory, depth, cells, budget),
        state,
    )
}

#[unsafe(no_mangle)]
pub extern "C" fn probe_go_on(
    code: &[u8],
    memory: &mut [i32],
    depth: u64,
    cells: u64,
    state: &mut [u32],
    budget: u32,
) -> u64 {
    put_piece(
        machine_run::go_on(code, memory, depth, cells, state_of(state), budget),
        state,
    )
}

#[unsafe(no_mangle)]
pub extern "C" fn probe_read_back(
    table: &[u8],
    memory: &[i32],
    depth: u64,
    store: &mut [i32],
) -> u64 {
    pod_packing::pack_count(fitting_load::read_back(table, memory, depth, store))
}

#[unsafe(no_mangle)]
pub extern "C" fn probe_inspect(code: &[u8], depth: u64, cells: u64) -> u64 {
    pod_packing::pack_count(inspection_search::inspect(code, depth, cells))
}

#[unsafe(no_mangle)]
pub extern "C" fn probe_run_paired(
    code: &[u8],
    table: &[u8],
    store: &mut [i32],
    depth: u64,
    budget: u32,
) -> u64 {
    pod_packing::pack_run(fitting_paired::run_paired(code, table, store, depth, budget))
}

// A preview's answer as one number, and its store in the lent cells, unless it is refused or they are not as many.
fn put_preview(preview: Preview, out: &mut [i32]) -> u64 {
    if preview.run.is_ok() && out.len() == preview.store.len() {
        out.copy_from_slice(&preview.store);
    }
    pod_packing::pack_run(preview.run)
}

#[unsafe(no_mangle)]
pub extern "C" fn probe_preview_source(
    text: &[u8],
    store: &[i32],
    budget: u32,
    out: &mut [i32],
) -> u64 {
    put_preview(source_run::preview_source(text, store, budget), out)
}

#[unsafe(no_mangle)]
pub extern "C" fn probe_preview_machine(
    code: &[u8],
    memory: &[i32],
    depth: u64,
    table: &[u8],
    store: &[i32],
    budget: u32,
    out: &mut [i32],
) -> u64 {
    put_preview(
        fitting_preview::preview_machine(code, memory, depth, table, store, budget),
        out,
    )
}
