// The second compiling stage: addresses and the table, and assembly records turned into machine records in place.
// `rename_records` serves the way back too.
#![tactic(auto)]

ghost use Rattle.std.specs.Prelude.{◌≡◌, ℕ, ◌+◌, ◌*◌, ◌<◌, ◌≤◌, List, length};
ghost use Rattle.record.specs.Records.{AssemblyCode};
ghost use Rattle.record.specs.Bytes.{assembly_kind};
ghost use Rattle.record_test.specs.Code.{kind_of};
ghost use Rattle.compile_translation.specs.Standing.{Stands, Holds, Renamed, Renames, Renamable};
ghost use Rattle.compile_translation.specs.Steps as Steps;
ghost use Rattle.compile_translation.specs.Translated.{Numbered, Translated};

use record::{LOADI, RECORD_BYTES, Variable};
use record_test::Kind;

// ---- One kind of record to the other

// Whether the record of this number names something: LOAD's is 1, STORE's 3.
fn has_name(number: u8) -> bool
    ensures { result ≡ Steps.has_name number }
{
    matches!(number, 1 | 3)
}

// The first record of a buffer in another kind: the other kind's first byte, and another name. A name is below 256, so
// it is the operand's lowest byte.
fn rename_front(code: &mut [u8], from: Kind, to: Kind, names: &[u8])
    requires { Renamable from.first to.first names.now code.old }
    ensures { code.new ≡ Steps.renamed_front from.first to.first names.now code.old }
{
    // A number and no `Operation`: the other kind's byte is its first byte and this number again, and to make an
    // `Operation` of it would take a test more for each record, and a case for bytes that stand for none.
    let number = code[0] - from.first;
    code[0] = to.first + number;
    if has_name(number) {
        code[1] = names[usize::from(code[1])];
    }
}

// The records at the start of a buffer in another kind, each name x the x-th of `names`: a variable's is its address by
// a table, an address's its variable by the inverse.
// That records stand there is said by clauses (`Holds`) and by no type: the buffer is lent, and their kind changes.
pub fn rename_records(code: &mut [u8], count: usize, from: Kind, to: Kind, names: &[u8])
    requires renames { Renames from to names.now }
    requires holds { Holds (kind_of from) count code.old }
    ensures { Renamed from to names.now count code.old code.new }
{
    for i in 0..count {
        rename_front(&mut code[RECORD_BYTES * i..], from, to, names);
    }
}

// ---- The table

// The variable that the assembly record at an index mentions, if it mentions one.
fn mentioned(code: &[u8], i: usize) -> Option<Variable>
    requires { 5 * i + 1 < length code.now }
    ensures { result ≡ Steps.mention_at code.now i }
{
    record::named_at(code, i, LOADI).map(Variable)
}

// The next address to a variable that has none yet; gives how many have one.
fn give_address(variable: Variable, n: usize, table: &mut [u8]) -> usize
    requires { (variable.0 < length table.old) × (n ≤ 64) }
    ensures { (result, table.new) ≡ Steps.addressed variable.0 n table.old }
{
    let v = variable.0;
    if table[v] == 0 {
        table[v] = (n + 1) as u8;
        return n + 1;
    }
    n
}

// The table of assembly records, from the last back to the first; gives how many variables they name.
// The table's length stays a clause: the calls test the slice that they are lent (8), and would test it once more to
// have it as an array.
fn number_variables(code: &[u8], count: usize, table: &mut [u8]) -> usize
    requires table_len { length table.old ≡ 64 }
    requires holds { Holds assembly_kind count code.now }
    ensures { (P : AssemblyCode) (lent : List ℕ) → Stands assembly_kind P lent count code.now
        → Numbered P result table.new }
{
    table.fill(0);
    let mut n = 0;
    for i in (0..count).rev() {
        if let Some(variable) = mentioned(code, i) {
            n = give_address(variable, n, table);
        }
    }
    n
}

// Turns assembly records into machine records where they stand, and writes their table; gives n. The second half of
// compiling: P are the records that were written over what was lent.
pub fn translate(code: &mut [u8], count: usize, table: &mut [u8]) -> usize
    requires table_len { length table.old ≡ 64 }
    requires holds { Holds assembly_kind count code.old }
    ensures { (P : AssemblyCode) (lent : List ℕ) → Stands assembly_kind P lent count code.old
        → Translated P lent result table.new code.new }
{
    let n = number_variables(code, count, table);
    rename_records(
        code,
        count,
        Kind::assembly(),
        Kind::machine(n as u64),
        table,
    );
    n
}
