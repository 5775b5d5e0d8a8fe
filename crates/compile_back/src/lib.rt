// The call `go_back`: from machine records and their table back to assembly records.
#![tactic(auto)]

ghost use Rattle.std.specs.Prelude.{◌≡◌, ℕ, ◌<◌, ◌≤◌, length, get_or, replicate};
ghost use Rattle.base.specs.Answers.{gives, and_then};
ghost use Rattle.base.specs.Code.{count_answer};
ghost use Rattle.compile.specs.Table as Table;
ghost use Rattle.compile.specs.Calls as Calls;
ghost use Rattle.compile_back.specs.Steps as Steps;

use base::{Reason, Refusal, copy_over};
use compile::TABLE_BYTES;
use compile_translation::rename_records;
use record::RECORD_BYTES;
use record_test::Kind;

// The addresses: 0, which names nothing, and one for each variable.
const ADDRESSES: usize = base::VARIABLES + 1;

// A table's inverse over zeros: the variable of each address, by the address. It goes from the last variable down, so
// that the first one with an address is written last.
fn invert(table: &[u8], names: &mut [u8])
    requires table_len { length table.now ≤ 64 }
    requires entries_inside { (v : ℕ) → get_or table.now v 0 < length names.old }
    requires names_zeros { names.old ≡ replicate (length names.old) 0 }
    ensures { names.new ≡ Steps.inverse table.now 0 (length names.old) }
{
    for v in (0..table.len()).rev() {
        let a = usize::from(table[v]);
        names[a] = v as u8;
    }
}

// The tests of going back in their order: 9, 8, 12, 10, 7. Gives n.
pub fn test(code: &[u8], table: &[u8], out: &[u8]) -> Result<usize, Refusal>
    ensures { count_answer result
        ≡ and_then (Calls.go_back_tests code.now table.now out.now)
        (λ P. gives (Table.named_in table.now)) }
{
    if !record_test::is_whole(code) {
        return Err(Reason::NotWhole.at(0));
    }
    if table.len() != TABLE_BYTES {
        return Err(Reason::WrongLength.at(0));
    }
    let Some(n) = compile_table::names(table) else {
        return Err(Reason::NoTable.at(0));
    };
    let count = code.len() / RECORD_BYTES;
    if let Some(place) = Kind::machine(n as u64).mismatch(code, count) {
        return Err(Reason::NoRecord.at(place));
    }
    if out.len() < RECORD_BYTES * count {
        return Err(Reason::ShortOutput.at(0));
    }
    Ok(n)
}

// Turns machine records and a table into assembly records; gives the record count. Refusals 9, 8, 12, 10, 7.
pub fn go_back(code: &[u8], table: &[u8], out: &mut [u8]) -> Result<usize, Refusal>
    ensures { (count_answer result, out.new)
        ≡ Calls.go_back code.now table.now out.old }
{
    let n = test(code, table, out)?;
    let count = code.len() / RECORD_BYTES;
    let mut names = [0u8; ADDRESSES];
    invert(table, &mut names);
    copy_over(code, out);
    rename_records(
        out,
        count,
        Kind::machine(n as u64),
        Kind::assembly(),
        &names,
    );
    Ok(count)
}
