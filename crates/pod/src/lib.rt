// What the pod's C host calls, with numbers and byte buffers only. An answer is one number, packed as Packing says.
#![tactic(auto)]

ghost use Rattle.std.specs.Prelude.{◌≡◌};
ghost use Rattle.text.specs.Calls.{read_call};
ghost use Rattle.compile.specs.Calls.{compile, go_back};
ghost use Rattle.pod_packing.specs.Packing.{packed_sizes, packed_count};
ghost use Rattle.pod.specs.Exports.{beside};

// Reads a text: its sizes, or its refusal. In C: uint64_t profile_read(const uint8_t *text, size_t length).
#[unsafe(no_mangle)]
pub extern "C" fn profile_read(text: &[u8]) -> u64
    ensures { result ≡ packed_sizes (read_call text.now) }
{
    pod_packing::pack_sizes(text_read::read(text))
}

// Compiles a text into machine code and its table: the sizes, or the refusal.
#[unsafe(no_mangle)]
pub extern "C" fn profile_compile(text: &[u8], code: &mut [u8], table: &mut [u8]) -> u64
    ensures { (result, record { code = code.new; table = table.new })
        ≡ beside packed_sizes
        (compile text.now (record { code = code.old; table = table.old })) }
{
    pod_packing::pack_sizes(compile_machine::compile(text, code, table))
}

// Turns machine code and its table into assembly: the record count, or the refusal.
#[unsafe(no_mangle)]
pub extern "C" fn profile_go_back(code: &[u8], table: &[u8], out: &mut [u8]) -> u64
    ensures { (result, out.new)
        ≡ beside packed_count (go_back code.now table.now out.old) }
{
    pod_packing::pack_count(compile_back::go_back(code, table, out))
}
