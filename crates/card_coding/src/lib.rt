// The calls of a schedule file for programs in Rust or C (02, C-11): a parameter's state written as a file, and a file read in parts, the reader kept between them
// in an array of plain numbers that the caller lends.
#![tactic(auto)]

ghost use Rattle.std.specs.Prelude.{◌≡◌};
ghost use Rattle.card_coding.specs.Calls.{bad_card, WritesCard, OpensCard, HearsCard, EndsCard};

use array::{BAD_CARD, LENGTH, is_card, put_card, reader_in, verdict_number};
use card::is_accepted;
use card_reader::CardReader;
use param::AudioParam;
use rules::AutomationRate;

mod array; // array.rt: the array, and the reader that it keeps

const LONG_PART: u32 = 102;

const BAD_STORE: u32 = 14;

// Writes a parameter's file into `out`: `at` is how many bytes that were; refused, the event's place, or how many bytes it takes.
pub fn write(state: &[u64], store: &[f32], out: &mut [u8], at: &mut usize) -> u32
    ensures { WritesCard state.now store.now out.old at.old result out.new at.new }
{
    let d = coding::decode(state);
    let Ok(()) = d.verdict else {
        return BAD_CARD;
    };
    let said = card_writer::write(d.param, store, out);
    *at = said.at;
    verdict_number(said.verdict)
}

// A reader before the first part.
pub fn open(card: &mut [u64], numbers: &mut [f32], rate: AutomationRate, edition: u64) -> u32
    ensures { OpensCard rate edition card.old numbers.old result card.new numbers.new }
{
    if card.len() != LENGTH || numbers.len() != AudioParam::STORE {
        return BAD_CARD;
    }
    let r = CardReader::open(rate, edition, numbers);
    put_card(card, r);
    0
}

// One part more; behind a field that is refused nothing is read.
pub fn part(card: &mut [u64], window: &mut [u8], numbers: &mut [f32], part: &[u8]) -> u32
    ensures { HearsCard card.old numbers.old window.old part.now result card.new numbers.new window.new }
{
    if !is_card(&card[..], &numbers[..], &window[..]) {
        return BAD_CARD;
    }
    if card_reader::PART < part.len() {
        return LONG_PART;
    }
    if card[1] != 0 {
        return 0;
    }
    if let Some(next) = reader_in(&card[..]).take(part, window, numbers) {
        put_card(card, next);
    }
    0
}

// The file's end: its parameter over the state, and its numbers in the store; refused, `at` is the offset.
pub fn end(
    card: &[u64],
    window: &[u8],
    numbers: &mut [f32],
    state: &mut [u64],
    store: &mut [f32],
    at: &mut usize,
) -> u32
    ensures { EndsCard card.now numbers.old window.now
        (record { number = bad_card; at = at.old; state = state.old; store = store.old })
        (record { number = result; at = at.new; state = state.new; store = store.new }) }
{
    if !is_card(card, &numbers[..], window) || state.len() != coding::LENGTH {
        return BAD_CARD;
    }
    if store.len() != AudioParam::STORE {
        *at = 0;
        return BAD_STORE;
    }
    if card[1] != 0 {
        *at = card[2] as usize;
        return card[1] as u32;
    }
    let r = reader_in(card);
    let l = r.finish(window, numbers, r.param, store);
    *at = l.says.at;
    let number = verdict_number(l.says.verdict);
    if is_accepted(l.says.verdict) {
        coding::encode(l.param, state);
    }
    number
}
