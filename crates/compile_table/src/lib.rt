// The test of a table that is read, and the addresses in it; the test of its n against machine code.
#![tactic(auto)]

ghost use Rattle.std.specs.Prelude.{◌≡◌, ◌+◌, ◌*◌, ◌<◌, ◌≤◌, length, get_or, MatchOption};
ghost use Rattle.compile.specs.Table as Table;
ghost use Rattle.compile.specs.Table.{named_in};
ghost use Rattle.compile_table.specs.AddressMarks as AddressMarks;
ghost use Rattle.compile_table.specs.Sights.{address_at, Passed};
ghost use Rattle.compile_table.specs.Tested.{tested};

use record::{Address, MLOADI, Variable};

// The bits of a word, one for each address that a table can name.
const WORD_BITS: usize = 64;

// What one pass over a table gathers: its address marks, and how many of its entries are not 0.
#[derive(Clone, Copy)]
struct Marked {
    word: u64,
    count: usize,
}

// The address that a table gives to a variable, if it is named: its entry, where that is not 0.
pub fn address_of(table: &[u8], variable: Variable) -> Option<Address>
    requires { variable.0 < length table.now }
    ensures { MatchOption result (get_or table.now variable.0 0 ≡ 0)
        (λ (a : Address). (a.0 ≡ get_or table.now variable.0 0) × (0 < a.0) × (a.0 < 256)) }
{
    match table[variable.0] {
        0 => None,
        entry => Some(Address(usize::from(entry))),
    }
}

// A word with its n lowest bits set, and no other; all of them without a shift by the word's width.
fn lowest(n: usize) -> u64
    requires { n ≤ 64 }
    ensures { result ≡ AddressMarks.lowest n }
{
    if n == WORD_BITS {
        return u64::MAX;
    }
    (1 << n) - 1
}

// Marks each address of a table in one word: bit a - 1 for address a, none for an entry above 64.
fn mark_all(table: &[u8]) -> Marked
    ensures { (result.word ≡ AddressMarks.address_marks table.now)
        × (result.count ≡ named_in table.now) }
{
    let mut word = 0u64;
    let mut count = 0;
    for &entry in table {
        let a = usize::from(entry);
        if a != 0 {
            count += 1;
            if a <= WORD_BITS {
                word |= 1u64 << (a - 1);
            }
        }
    }
    Marked { word, count }
}

// How many variables a table names, if its nonzero entries are 1 to that number, once each: if so many of the lowest
// bits of its address marks are set, and no other.
pub fn names(table: &[u8]) -> Option<usize>
    requires { length table.now ≡ 64 }
    ensures { result ≡ tested table.now }
{
    let marked = mark_all(table);
    if marked.word == lowest(marked.count) {
        Some(marked.count)
    } else {
        None
    }
}

// ---- The table's n and the addresses in machine code

// The address that the tested machine record at an index names, if it names one.
fn address_at(code: &[u8], i: usize) -> Option<Address>
    requires { 5 * i + 1 < length code.now }
    ensures { result ≡ address_at code.now i }
{
    record::named_at(code, i, MLOADI).map(Address)
}

// Whether the addresses in machine code, at their first sight from the last record backwards, are 1, 2 and on to n.
// While they are in order, those seen are 1 to `seen`.
pub fn agrees(code: &[u8], count: usize, n: usize) -> bool
    requires { Passed code.now count n }
    ensures { (x : Passed code.now count n) → result ≡ Table.agrees x.records n }
{
    let mut seen = 0;
    for i in (0..count).rev() {
        if let Some(address) = address_at(code, i) {
            if seen < address.0 {
                seen += 1;
                if address.0 != seen {
                    return false;
                }
            }
        }
    }
    seen == n
}
