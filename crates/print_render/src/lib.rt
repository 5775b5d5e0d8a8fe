// The whole of what the printing program prints for a text, as bytes in a lent buffer. What is run is the machine code:
// the text is compiled, and its code and table are run as a pair.
#![tactic(auto)]

ghost use Rattle.std.specs.Prelude.{ℕ, ◌+◌, ◌*◌, ◌≤◌, ◌≡◌, length, MatchResult};
ghost use Rattle.base.specs.Code.{number_of, end_of};
ghost use Rattle.record.specs.Records.{AssemblyCode, MachineCode};
ghost use Rattle.print_ascii.specs.Puts.{Puts, Prints};
ghost use Rattle.print.specs.Printing.{refusal_line, shown};
ghost use Rattle.print_records.specs.Lines.{Codes};
ghost use Rattle.print_render.specs.Lines.{SomeCodes, lines};

use base::{Ended, Refusal, VARIABLES};
use print_ascii::Page;
use print_lines::LONGEST_OUTPUT;
use record::{MOST_RECORDS, RECORD_BYTES};
use text::Sizes;

// "Under budget 1000000"
const BUDGET: u32 = 1000000;

// Room for as many records as a code can have.
const CODE_BYTES: usize = RECORD_BYTES * MOST_RECORDS;

fn code_buffer() -> [u8; CODE_BYTES]
    ensures { 20480 ≡ length result }
{
    [0; CODE_BYTES]
}

// The lines of a text that was accepted and run.
fn put_lines(
    page: &mut Page,
    assembly: &[u8],
    machine: &[u8],
    table: &[u8],
    store: &[i32],
    sizes: Sizes,
    run: Ended,
)
    requires room { (page.old.at + 200000 ≤ length page.old.out.now) × (sizes.records ≤ 4096) }
    requires codes { (5 * sizes.records ≤ length assembly.now) × (5 * sizes.records ≤ length machine.now) }
    requires variables { (64 ≤ length table.now) × (64 ≤ length store.now) }
    requires some_codes { SomeCodes assembly.now machine.now sizes.records }
    ensures { (n : ℕ) (P : AssemblyCode) (Q : MachineCode)
        → Codes assembly.now machine.now sizes.records n P Q
        → Prints (lines sizes P Q (end_of run.end) run.count table.now store.now) page.old page.new }
{
    print_lines::put_first_line(page, sizes);
    print_records::put_record_lines(page, assembly, machine, sizes.records);
    print_lines::put_run_line(page, run);
    print_lines::put_value_lines(page, table, store);
}

// What is printed for an accepted text; where the text is refused, nothing.
fn put_accepted(text: &[u8], page: &mut Page) -> Result<(), Refusal>
    requires { page.old.at + 200000 ≤ length page.old.out.now }
    ensures { MatchResult result (λ _. Prints (shown text.now) page.old page.new)
        (λ r. (page.new ≡ page.old) × (shown text.now ≡ refusal_line (number_of r.reason) r.place)) }
{
    let sizes = text_read::read(text)?;
    let mut assembly = code_buffer();
    let mut machine = code_buffer();
    let mut table = [0u8; VARIABLES];
    let mut store = [0i32; VARIABLES];
    compile_assembly::assemble(text, &mut assembly)?;
    compile_machine::compile(text, &mut machine, &mut table)?;
    let code = &machine[..RECORD_BYTES * sizes.records];
    let depth = sizes.depth as u64;
    let run = fitting_paired::run_paired(code, &table, &mut store, depth, BUDGET)?;
    put_lines(page, &assembly, &machine, &table, &store, sizes, run);
    Ok(())
}

// Zeros for what is printed for any text.
pub fn output_buffer() -> [u8; LONGEST_OUTPUT]
    ensures { 200000 ≡ length result }
{
    [0; LONGEST_OUTPUT]
}

// What is printed for a text, from the start of the buffer on: how many bytes that is.
pub fn render(text: &[u8], out: &mut [u8; LONGEST_OUTPUT]) -> usize
    ensures puts { Puts (shown text.now) 0 out.old out.new result }
    ensures within { result ≤ length out.new }
{
    let mut page = Page { out, at: 0 };
    if let Err(refusal) = put_accepted(text, &mut page) {
        print_lines::put_refusal(&mut page, refusal);
    }
    page.at
}
