// The exports of the archive: each entry of `seamkettle` under its own name, with its clauses, as a C program calls it
// (include/seamkettle.h). A static library can't be used by another crate, so the entries, their definitions and their laws are in
// `seamkettle`, and this hands each call on.
#![tactic(auto)]

ghost use Rattle.std.specs.Prelude.{◌≡◌, length, not, eqb};
ghost use Rattle.memory.specs.Bytes.{lent};
ghost use Rattle.seamkettle.specs.Calls.{seen, loading, read_number, read_buffer, stepping, running, stepping_back, number_in, block_after, assemble_number, assembled_words, version};
ghost use Rattle.journal.specs.Back.{forget_number, forgotten};
ghost use Rattle.host.specs.Host.{set_number, set_state, protect_number, protect_state, register_number, register_state};
ghost use Rattle.printer.specs.Print.{word_next, word_buffer};
ghost use Rattle.lister.specs.Listing.{listed, listed_buffer};
ghost use Rattle.source.specs.Source.{byte_answer, byte_buffer};
ghost use Rattle.numbers.specs.Answers.{listed_number, sourced_number};

// Loads a program: 31, 1, 16, 14, 15, 13. 15 and 13 keep what was stored and the emptied journal.
#[unsafe(no_mangle)]
pub extern "C" fn kettle_load(
    block: &mut [u8],
    memory: &mut [u8],
    devices: &mut [u8],
    journal: &[u8],
    words: &[u8],
) -> u64
    ensures { seen result block.new (lent memory.new devices.new) journal.now ≡ loading words.now block.old (lent memory.old devices.old) journal.now }
{
    seamkettle::kettle_load(block, memory, devices, journal, words)
}

// Reads size bytes from start on into the buffer: 31, 1, 12, 19, then how many there are before the first unmapped one.
#[unsafe(no_mangle)]
pub extern "C" fn kettle_read(
    block: &[u8],
    memory: &[u8],
    devices: &[u8],
    journal: &[u8],
    start: usize,
    size: usize,
    buffer: &mut [u8],
) -> u64
    ensures value { result ≡ read_number block.now (lent memory.now devices.now) journal.now start size (length buffer.old) }
    ensures buffer_after { buffer.new ≡ read_buffer block.now (lent memory.now devices.now) journal.now start size buffer.old }
{
    seamkettle::kettle_read(block, memory, devices, journal, start, size, buffer)
}

// One step, recorded: 31, 1, then the machine's own answer.
#[unsafe(no_mangle)]
pub extern "C" fn kettle_step(
    block: &mut [u8],
    memory: &mut [u8],
    devices: &mut [u8],
    journal: &mut [u8],
) -> u64
    ensures { seen result block.new (lent memory.new devices.new) journal.new ≡ stepping block.old (lent memory.old devices.old) journal.old }
{
    seamkettle::kettle_step(block, memory, devices, journal)
}

// At most so many steps: 31, 1, then the last step's answer, and how many were accepted.
#[unsafe(no_mangle)]
pub extern "C" fn kettle_run(
    block: &mut [u8],
    memory: &mut [u8],
    devices: &mut [u8],
    journal: &mut [u8],
    steps: u32,
) -> u64
    ensures { seen result block.new (lent memory.new devices.new) journal.new ≡ running steps block.old (lent memory.old devices.old) journal.old }
{
    seamkettle::kettle_run(block, memory, devices, journal, steps)
}

// Takes the newest record back: 31, 1, 10, 11.
#[unsafe(no_mangle)]
pub extern "C" fn kettle_step_back(
    block: &mut [u8],
    memory: &mut [u8],
    devices: &mut [u8],
    journal: &[u8],
) -> u64
    ensures { seen result block.new (lent memory.new devices.new) journal.now ≡ stepping_back block.old (lent memory.old devices.old) journal.now }
{
    seamkettle::kettle_step_back(block, memory, devices, journal)
}

// Empties the journal: 31, 1. Its bytes stay.
#[unsafe(no_mangle)]
pub extern "C" fn kettle_forget(block: &mut [u8], devices: &[u8], journal: &[u8]) -> u64
    ensures value { result ≡ number_in block.old (λ s. forget_number s devices.now journal.now) }
    ensures block_after { block.new ≡ block_after block.old (λ s. forgotten s devices.now journal.now) }
{
    seamkettle::kettle_forget(block, devices, journal)
}

// Sets register `number` of A to FLAGS, from 0: 31, 1, 18.
#[unsafe(no_mangle)]
pub extern "C" fn kettle_set_register(
    block: &mut [u8],
    devices: &[u8],
    journal: &[u8],
    number: usize,
    value: u16,
) -> u64
    ensures value { result ≡ number_in block.old (λ s. set_number s devices.now journal.now number) }
    ensures block_after { block.new ≡ block_after block.old (λ s. set_state s devices.now journal.now number value) }
{
    seamkettle::kettle_set_register(block, devices, journal, number, value)
}

// Protects the addresses from start on, len of them: 31, 1, 12, 13, 14.
#[unsafe(no_mangle)]
pub extern "C" fn kettle_protect(
    block: &mut [u8],
    devices: &[u8],
    journal: &[u8],
    start: usize,
    len: usize,
) -> u64
    ensures value { result ≡ number_in block.old (λ s. protect_number s devices.now journal.now start len) }
    ensures block_after { block.new ≡ block_after block.old (λ s. protect_state s devices.now journal.now start len) }
{
    seamkettle::kettle_protect(block, devices, journal, start, len)
}

// A new device over the addresses from start on, size of them: 31, 1, 12, 13, 14, 17.
#[unsafe(no_mangle)]
pub extern "C" fn kettle_device(
    block: &mut [u8],
    devices: &[u8],
    journal: &[u8],
    start: usize,
    size: usize,
) -> u64
    ensures value { result ≡ number_in block.old (λ s. register_number s devices.now journal.now start size) }
    ensures block_after { block.new ≡ block_after block.old (λ s. register_state s devices.now journal.now start size) }
{
    seamkettle::kettle_device(block, devices, journal, start, size)
}

// Assembles a text into words, plainly for strict = 0: 31, then a refusal and its line, or how many words, open references and
// labels there are. Words that are not used are zero, all of them on a refusal but 31.
#[unsafe(no_mangle)]
pub extern "C" fn kettle_assemble(text: &[u8], strict: u8, words: &mut [u8]) -> u64
    ensures value { result ≡ assemble_number (not (eqb strict 0)) text.now words.old }
    ensures words_after { words.new ≡ assembled_words (not (eqb strict 0)) text.now words.old }
{
    seamkettle::kettle_assemble(text, strict, words)
}

// The listing of a text: 19, or how long it is.
#[unsafe(no_mangle)]
pub extern "C" fn kettle_list(text: &[u8], out: &mut [u8]) -> u64
    ensures value { result ≡ listed_number (listed text.now (length out.old)) }
    ensures out_after { out.new ≡ listed_buffer text.now out.old }
{
    seamkettle::kettle_list(text, out)
}

// What a word says, as the listing has it: 4 to 6, 19, or how long it is.
#[unsafe(no_mangle)]
pub extern "C" fn kettle_print(word: u16, out: &mut [u8]) -> u64
    ensures value { result ≡ listed_number (word_next word (length out.old)) }
    ensures out_after { out.new ≡ word_buffer word out.old }
{
    seamkettle::kettle_print(word, out)
}

// Assembly text for words, which assembles plainly to the very same words: 31, 16, 33 with the index of the lowest word that no line
// gives, 19, or how long it is.
#[unsafe(no_mangle)]
pub extern "C" fn kettle_text(words: &[u8], out: &mut [u8]) -> u64
    ensures value { result ≡ sourced_number (byte_answer words.now (length out.old)) }
    ensures out_after { out.new ≡ byte_buffer words.now out.old }
{
    seamkettle::kettle_text(words, out)
}

#[unsafe(no_mangle)]
pub extern "C" fn kettle_version() -> u32
    ensures { result ≡ version }
{
    seamkettle::kettle_version()
}
