// The stack machine over any memory, the calls that run it, and what is claimed of runs and of runs in pieces. These
// stand in specs/. Here are the state of a paused run, and what a call that runs machine code gives.
#![tactic(auto)]

ghost use Rattle.std.specs.Prelude.{◌≡◌};
ghost use Rattle.base.specs.Code.{told_run};
ghost use Rattle.machine.specs.Calls.{fresh_state, ran_of};
ghost use Rattle.machine.specs.Code.{told_piece};

use base::{End, Ended};

// What a spent run hands out, and a later call takes: the position of the record due, the number of values on the
// stack, the records counted, and the mark, the most values that there were.
#[derive(Clone, Copy)]
pub struct State {
    pub position: usize,
    pub size: usize,
    pub count: u32,
    pub mark: usize,
}

// What a call that runs machine code gives: the run's end, its count and its mark; or, where it is spent, its state.
#[derive(Clone, Copy)]
pub enum Piece {
    Ended(Ended),
    Paused(State),
}

impl State {
    // Of a fresh machine: position 0, stack empty, count 0, mark 0.
    pub fn fresh() -> Self
        ensures { result ≡ fresh_state }
    {
        State {
            position: 0,
            size: 0,
            count: 0,
            mark: 0,
        }
    }
}

impl Piece {
    // The same without the state: a run's end, its count and its mark.
    pub fn without_state(self) -> Ended
        ensures { told_run result ≡ ran_of (told_piece self) }
    {
        match self {
            Piece::Ended(ended) => ended,
            Piece::Paused(state) => Ended {
                end: End::Spent,
                count: state.count,
                mark: state.mark,
            },
        }
    }
}
