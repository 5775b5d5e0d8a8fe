// The call `inspect`, its tests and its search. The positions that can be reached are found one after the other, each
// with its height, and each is looked at once.
#![tactic(auto)]

ghost use Rattle.std.specs.Prelude.{◌≡◌, ◌&&◌, leb, length};
ghost use Rattle.base.specs.Answers.{gives, and_then};
ghost use Rattle.base.specs.Code.{count_answer};
ghost use Rattle.inspection.specs.Calls.{inspect_tests, Inspected};
ghost use Rattle.inspection_search.specs.Search.{Blank, Ready, ReadyAmong, Searched};

use base::{Reason, Refusal};
use inspection_visit::Positions;
use machine_step::Machine;
use record::MOST_RECORDS;

// The positions of the longest code, its end among them; and those of short code, for which less is cleared.
const POSITIONS: usize = MOST_RECORDS + 1;

const FEW_POSITIONS: usize = 256;

// Looks at the positions in the order in which they are found, each once, until all are looked at or one of them tells
// that no heights can be given.
fn search(code: &[u8], last: usize, depth: usize, labels: &mut [u8], order: &mut [u16]) -> bool
    requires { Blank code.now last depth labels.old order.old }
    ensures { Searched code.now last depth result }
{
    labels[0] = 1;
    order[0] = 0;
    let mut positions = Positions {
        labels,
        order,
        found: 1,
    };
    let mut i = 0;
    // No `for`: the range would be fixed before the first turn, and each turn may find more.
    while i < positions.found {
        let at = usize::from(positions.order[i]);
        if !positions.visit(code, last, depth, at) {
            return false;
        }
        i += 1;
    }
    true
}

// The search among at most N positions, the end among them.
fn search_among<const N: usize>(code: &[u8], last: usize, depth: usize) -> bool
    requires { ReadyAmong N code.now last depth }
    ensures { Searched code.now last depth result }
{
    let mut labels = [0u8; N];
    let mut order = [0u16; N];
    search(code, last, depth, &mut labels, &mut order)
}

// Refusal 11's test where no memory is lent: D and n at most 64.
fn limits_hold(depth: u64, cells: u64) -> bool
    ensures { result ≡ leb depth 64 && leb cells 64 }
{
    depth <= Machine::STACK_CELLS as u64 && cells <= Machine::VARIABLES as u64
}

// The tests before heights are looked for, in the document's order: refusals 9, 10, 11. Gives the number of records.
fn test(code: &[u8], depth: u64, cells: u64) -> Result<usize, Refusal>
    ensures { count_answer result
        ≡ and_then (inspect_tests code.now depth cells) (λ P. gives (length P)) }
{
    record_test::test_machine(code, cells, limits_hold(depth, cells))
}

// Whether heights can be given to code that passed the tests.
fn passes(code: &[u8], last: usize, depth: usize) -> bool
    requires { Ready code.now last depth }
    ensures { Searched code.now last depth result }
{
    if last < FEW_POSITIONS {
        return search_among::<FEW_POSITIONS>(code, last, depth);
    }
    search_among::<POSITIONS>(code, last, depth)
}

// Inspects machine code with D = `depth` and n = `cells`: gives the record count where heights can be given to all
// positions that jumps and steps can reach. Refuses 9, 10, 11, 13.
pub fn inspect(code: &[u8], depth: u64, cells: u64) -> Result<usize, Refusal>
    ensures { Inspected code.now depth cells (count_answer result) }
{
    let last = test(code, depth, cells)?;
    if !passes(code, last, depth as usize) {
        return Err(Reason::NoHeights.at(0));
    }
    Ok(last)
}
