// The call `compile`: a text's machine code and its table.
#![tactic(auto)]

ghost use Rattle.std.specs.Prelude.{◌≡◌};
ghost use Rattle.base.specs.Answers.{gives, and_then};
ghost use Rattle.text.specs.Code.{sizes_answer};
ghost use Rattle.text.specs.Sizes.{sizes};
ghost use Rattle.compile.specs.Calls.{compile_tests, compile};

use base::{Reason, Refusal};
use compile::TABLE_BYTES;
use record::RECORD_BYTES;
use text::Sizes;

// The tests of `compile` in their order: 6, reading's, 8, 7. Gives the text's sizes.
pub fn test(text: &[u8], code: &[u8], table: &[u8]) -> Result<Sizes, Refusal>
    ensures { sizes_answer result
        ≡ and_then (compile_tests text.now code.now table.now)
        (λ c. gives (sizes c)) }
{
    let sizes = text_read::read(text)?;
    if table.len() != TABLE_BYTES {
        return Err(Reason::WrongLength.at(0));
    }
    if code.len() < RECORD_BYTES * sizes.records {
        return Err(Reason::ShortOutput.at(0));
    }
    Ok(sizes)
}

// Compiles a text: its assembly is written into the output and there turned into machine code, and each variable's
// address into the table. Gives the record count, D and n. Refuses 6, 1 to 5, 8, 7, and then changes nothing.
pub fn compile(text: &[u8], out: &mut [u8], table: &mut [u8]) -> Result<Sizes, Refusal>
    ensures { (sizes_answer result, record { code = out.new; table = table.new })
        ≡ compile text.now (record { code = out.old; table = table.old }) }
{
    let sizes = test(text, out, table)?;
    compile_assembly::write(text, out);
    compile_translation::translate(out, sizes.records, table);
    Ok(sizes)
}
