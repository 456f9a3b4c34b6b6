// `save` and `load`: the parameter written as a schedule file, and read from one (02, C-11).
ghost use Rattle.std.specs.Prelude.{◌≡◌, ℕ, ◌+◌, ◌≤◌, length, take};
ghost use Rattle.card.specs.Card.{begun, fed, at_end};
ghost use Rattle.card_reader.specs.Reader.{SoundReader, SoundWindow, reading_of, window_length};
ghost use Rattle.text.specs.Put.{Put};
ghost use Rattle.desk.specs.Desk.{SoundDesk, Spoken, saving, saved_line, loading_by, loading, ReadsFile};

use crate::{Answered, Desk, clear};
use answers::{put_fault, put_saved};
use card::{Judged, number_of};
use card_reader::CardReader;
use card_writer::write;
use rules::AutomationRate;
use tally::{after_command, none};
use text::write::put_word;

// What writing said, and the file where it is answered.
fn put_written(said: Judged, file: &[u8], out: &mut [u8], at: usize) -> usize
    requires { (said.verdict ≡ Ok tt → (said.at ≤ length file.now) × (said.at ≤ 17867)) × (at + 42000 ≤ length out.old) }
    ensures put { Put out.old at (saved_line said (take said.at file.now)) out.new result }
    ensures upper_bound { result ≤ at + 41999 }
{
    match said.verdict {
        Ok(()) => put_saved(out, at, &file[..said.at]),
        Err(fault) => put_fault(out, at, number_of(fault) as u64, said.at as u64),
    }
}

// The parameter as a file, whose bytes go into `file`.
pub fn save(desk: Desk, store: &[f32], file: &mut [u8], out: &mut [u8], at: usize) -> Answered
    requires { SoundDesk desk × (length store.now ≡ 8192) × (30000 ≤ length file.old) × (at + 42000 ≤ length out.old) }
    ensures { Spoken 41999 saving desk store.now out.old at result store.now out.new }
{
    let said = write(desk.param, &store[..4096], file);
    let next = put_written(said, &file[..], out, at);
    Answered { desk, next }
}

// A file in parts of so many bytes, the last one shorter.
fn read_file(
    part: usize,
    rate: AutomationRate,
    edition: u64,
    file: &[u8],
    window: &mut [u8],
    numbers: &mut [f32],
) -> CardReader
    requires { (1 ≤ part) × (part ≤ 65536) × (length window.old ≡ 65538) × (length numbers.old ≡ 4096) }
    ensures { ReadsFile rate edition file.now result numbers.new window.new }
{
    let mut reader = CardReader::open(rate, edition, numbers);
    let mut from = 0;
    // a step is as long as a part, so no `for`
    while from < file.len() {
        let to = from + part.min(file.len() - from);
        // no part is too long, so each is taken
        let Some(next) = reader.take(&file[from..to], window, numbers) else {
            return reader;
        };
        reader = next;
        from = to;
    }
    reader
}

// The file's end: its parameter and numbers, with the store cleared behind them; or why it is refused, and nothing changes.
fn finish(
    desk: Desk,
    reader: CardReader,
    window: &[u8],
    numbers: &mut [f32],
    store: &mut [f32],
    out: &mut [u8],
    at: usize,
) -> Answered
    requires { SoundDesk desk × SoundReader reader numbers.old × SoundWindow reader window.now × (length store.old ≡ 8192) × (at + 42000 ≤ length out.old) }
    ensures { Spoken 41999 (loading_by (at_end (reading_of reader numbers.old window.now))) desk store.old out.old at result store.new out.new }
{
    let loaded = reader.finish(window, numbers, desk.param, &mut store[..4096]);
    let says = loaded.says;
    match says.verdict {
        Ok(()) => {
            clear(&mut store[4096..]);
            let totals = after_command(none(), 0, loaded.param.len());
            let next = put_word(out, at, b"ok");
            let desk = Desk {
                param: loaded.param,
                lent: 4096,
                totals,
            };
            Answered { desk, next }
        }
        Err(fault) => {
            let next = put_fault(out, at, number_of(fault) as u64, says.at as u64);
            Answered { desk, next }
        }
    }
}

// A file in parts of so many bytes, into a new parameter.
pub fn load(
    desk: Desk,
    part: usize,
    rate: AutomationRate,
    edition: u64,
    file: &[u8],
    store: &mut [f32],
    out: &mut [u8],
    at: usize,
) -> Answered
    requires { SoundDesk desk × (1 ≤ part) × (part ≤ 65536) × (length store.old ≡ 8192) × (at + 42000 ≤ length out.old) }
    ensures { Spoken 41999 (loading rate edition file.now) desk store.old out.old at result store.new out.new }
{
    let mut window = [0u8; 65538];
    let mut numbers = [0.0f32; 4096];
    let reader = read_file(part, rate, edition, file, &mut window, &mut numbers);
    finish(desk, reader, &window, &mut numbers, store, out, at)
}
