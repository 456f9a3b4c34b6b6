// The array that keeps a reader between two parts: its test, the reader read from it, and the reader written to it.
ghost use Rattle.std.specs.Prelude.{◌≡◌, true, ◌≤◌, ◌<◌, length, get_or};
ghost use Rattle.rules.specs.Numbers.{most_events};
ghost use Rattle.param.specs.Param.{SoundParam};
ghost use Rattle.coding.specs.Coding.{is_state};
ghost use Rattle.card_reader.specs.Reader.{window_length};
ghost use Rattle.card_coding.specs.Array.{card_length, state_in, bit_of, are_long, is_head, is_waiting, bytes_counted, is_counted, is_card, Numbers, ReadsCard, PutsHead, PutsCard};

use card::Fault;
use card_reader::CardReader;
use card_reader::field::is_whole;
use coding::event::{flag_of, time_bits, time_in};
use coding::{rate_in, rate_word};
use param::AudioParam;

// How many numbers an array has: its version, the reader's own, then the state of its parameter.
pub const LENGTH: usize = 408;

const HEAD: usize = 9;

// The first number of an array: which layout it has.
const VERSION: u64 = 1;

// What is answered where an array, or a state, fails its test.
// A number, since C has no `Result`.
pub const BAD_CARD: u32 = 100;

// ---- words

// 0, or the fault's number.
pub fn verdict_number(verdict: Result<(), Fault>) -> u32
    ensures { Numbers verdict result }
{
    match verdict {
        Ok(()) => 0,
        Err(fault) => card::number_of(fault) as u32,
    }
}

#[tactic(auto, unfolding(crate::specs::Array::bit_of))]
fn bit_of(b: bool) -> u64
    ensures { result ≡ bit_of b }
{
    b as u64
}

// ---- the test

#[tactic(auto, unfolding(crate::specs::Array::are_long))]
fn are_long(card: &[u64], numbers: &[f32], window: &[u8]) -> bool
    ensures { result ≡ are_long card.now numbers.now window.now }
{
    card.len() == LENGTH
        && numbers.len() == AudioParam::STORE
        && window.len() == card_reader::WINDOW
}

#[tactic(auto, unfolding(crate::specs::Array::is_head))]
fn is_head(card: &[u64]) -> bool
    requires { length card.now ≡ card_length }
    ensures { result ≡ is_head card.now }
{
    card[0] == VERSION && card[1] <= 255 && (card[3] as usize) < card_reader::WINDOW
}

fn is_waiting(card: &[u64], window: &[u8]) -> bool
    requires { (length card.now ≡ card_length) × (get_or card.now 3 0 < window_length) × (length window.now ≡ window_length) }
    ensures { result ≡ is_waiting card.now window.now }
{
    card[1] != 0 || !is_whole(&window[..card[3] as usize])
}

// The most bytes that the fields of so many events have, and the range's before them.
fn bytes_counted(ranged: bool, events: usize) -> usize
    requires { events ≤ most_events }
    ensures { result ≡ bytes_counted ranged events }
{
    if ranged {
        card_reader::WINDOW * (events + 1)
    } else {
        0
    }
}

fn is_counted(card: &[u64]) -> bool
    requires { length card.now ≡ card_length }
    ensures { result ≡ is_counted card.now }
{
    let d = coding::decode(&card[HEAD..]);
    let Ok(()) = d.verdict else {
        return false;
    };
    card[2] as usize <= bytes_counted(card[6] != 0, d.param.len())
}

// Whether an array is one of a reader, with these numbers and this window.
pub fn is_card(card: &[u64], numbers: &[f32], window: &[u8]) -> bool
    ensures { result ≡ is_card card.now numbers.now window.now }
{
    if !are_long(card, numbers, window) {
        return false;
    }
    if !is_head(card) {
        return false;
    }
    if !is_waiting(card, window) {
        return false;
    }
    is_counted(card)
}

// ---- read and written

// The reader, while no field is refused.
pub fn reader_in(card: &[u64]) -> CardReader
    requires { (length card.now ≡ card_length) × (is_state (state_in card.now) ≡ true) }
    ensures { ReadsCard card.now result }
{
    CardReader {
        param: coding::decode(&card[HEAD..]).param,
        rate: rate_in(card[4]),
        edition: card[5],
        ranged: card[6] != 0,
        before: time_in(card[7], card[8]),
        offset: card[2] as usize,
        verdict: Ok(()),
        held: card[3] as usize,
    }
}

// All but the parameter's state.
fn put_head(card: &mut [u64], r: CardReader)
    requires { length card.old ≡ card_length }
    ensures { PutsHead card.old r card.new }
{
    card[0] = VERSION;
    card[1] = verdict_number(r.verdict) as u64;
    card[2] = r.offset as u64;
    card[3] = r.held as u64;
    card[4] = rate_word(r.rate);
    card[5] = r.edition;
    card[6] = bit_of(r.ranged);
    card[7] = flag_of(r.before);
    card[8] = time_bits(r.before);
}

// Writes a reader over an array.
pub fn put_card(card: &mut [u64], r: CardReader)
    requires { (length card.old ≡ card_length) × SoundParam r.param }
    ensures { PutsCard card.old r card.new }
{
    put_head(card, r);
    coding::encode(r.param, &mut card[HEAD..]);
}
