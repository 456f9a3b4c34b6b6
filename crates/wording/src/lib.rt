// A line as a person writes it, put into the session language: the same calls with decimal numbers, and `cost`, which that language has not.
#![tactic(auto)]

ghost use Rattle.std.specs.Prelude.{◌≡◌, ℕ, ◌+◌, ◌-◌, ◌*◌, ◌≤◌, ◌<◌, length, drop, bytes_eq};
ghost use Rattle.text.specs.Put.{Put};
ghost use Rattle.wording.specs.Plain.{is_blank, is_small, words_at, spaced, field_of, fields, numbers, length_for, block_fields, edition_fields, made_fields, tail_of, formed, form_in, form, scheduling, rows, translated, translation};
ghost use Rattle.std.specs.Bool.{beq};
ghost use Rattle.std.specs.List.{list_any, prefix_len};
ghost use Rattle.wording.specs.Walked.{run_of, first_of, next_at, Behind, Wrote, Ran, Passed, Inside, Room};

use decimal::read::{time_in, value_in};
use text::read::count_in;
use text::words::same;
use text::write::{put_byte, put_count, put_real, put_word};

// What a word is in the session language: a value's bits, a time's bits, or the same word.
#[derive(Clone, Copy)]
pub enum Kind {
    Value,
    Time,
    AsItIs,
}

// The last words of a call: so many of a kind; all that are left, as values; those of a block; or a rate and what is behind it.
#[derive(Clone, Copy)]
pub enum Tail {
    Fields(Kind, usize),
    Numbers,
    Block,
    Made,
}

// The words behind a call's name: so many of a kind, then the last ones.
#[derive(Clone, Copy)]
pub struct Form {
    pub kind: Kind,
    pub many: usize,
    pub tail: Tail,
}

// A word by its places in the line.
#[derive(Clone, Copy)]
pub struct Span {
    pub from: usize,
    pub to: usize,
}

// The places behind what was read of a line, and behind what was written.
#[derive(Clone, Copy)]
pub struct Told {
    pub next: usize,
    pub to: usize,
}

fn is_blank(c: u8) -> bool
    ensures { result ≡ is_blank c }
{
    matches!(c, b' ' | b'\t' | b'\r')
}

// How many characters at the front are blank, or are not.
fn run(line: &[u8], blank: bool) -> usize
    ensures { result ≡ prefix_len (λ c. beq (is_blank c) blank) line.now }
{
    line.iter().take_while(|c| is_blank(**c) == blank).count()
}

// The first place from `at` on that is no blank, or that is one.
fn past(line: &[u8], at: usize, blank: bool) -> usize
    requires { at ≤ length line.now }
    ensures { (result ≡ at + run_of blank (drop at line.now)) × (at ≤ result) × (result ≤ length line.now) }
{
    at + run(&line[at..], blank)
}

// The words that mean nothing.
const SMALL: [&[u8]; 9] = [
    b"", b"at", b"to", b"for", b"from", b"in", b"with", b"by", b"over",
];

// Whether a word is one of some.
fn is_among(word: &[u8], words: &[&[u8]]) -> bool
    ensures { result ≡ list_any (λ w. bytes_eq word.now w.now) words.now }
{
    words.iter().any(|w| word == *w)
}

fn is_small(word: &[u8]) -> bool
    ensures { result ≡ is_small word.now }
{
    is_among(word, &SMALL)
}

// The next word that means something.
fn next_word(line: &[u8], at: usize) -> Option<Span>
    requires { at ≤ length line.now }
    ensures { (next_at line.now result ≡ first_of (words_at line.now at)) × Behind line.now at result }
{
    let mut i = at;
    while i < line.len() {
        let from = past(line, i, true);
        let to = past(line, from, false);
        if !is_small(&line[from..to]) {
            return Some(Span { from, to });
        }
        i = to;
    }
    None
}

// A word behind a space.
fn put_spaced(out: &mut [u8], at: usize, word: &[u8]) -> usize
    requires { at + length word.now < length out.old }
    ensures { Put out.old at (spaced word.now) out.new result }
{
    let to = put_byte(out, at, b' ');
    put_word(out, to, word)
}

// A word as a field of its kind; the place behind it.
fn put_field(out: &mut [u8], at: usize, kind: Kind, word: &[u8]) -> Option<usize>
    requires { (0 < length word.now) × (at + 17 * length word.now ≤ length out.old) }
    ensures { Wrote (field_of kind word.now) out.old at result out.new }
{
    match kind {
        Kind::Value => {
            let x = value_in(word)?;
            let to = put_byte(out, at, b' ');
            Some(put_real(out, to, x))
        }
        Kind::Time => {
            let x = time_in(word)?;
            let to = put_byte(out, at, b' ');
            Some(put_real(out, to, x))
        }
        Kind::AsItIs => Some(put_spaced(out, at, word)),
    }
}

// n words of a kind.
fn put_fields(
    out: &mut [u8],
    at: usize,
    kind: Kind,
    n: usize,
    line: &[u8],
    from: usize,
) -> Option<Told>
    requires { (from ≤ length line.now) × (at + 17 * (length line.now - from) ≤ length out.old) }
    ensures { Ran line.now (fields kind n (words_at line.now from)) out.old at result out.new × Passed line.now from at result }
{
    let mut next = from;
    let mut to = at;
    for _i in 0..n {
        let word = next_word(line, next)?;
        to = put_field(out, to, kind, &line[word.from..word.to])?;
        next = word.to;
    }
    Some(Told { next, to })
}

// How many words are left.
// A while: it goes on by words, whose places differ.
fn count_words(line: &[u8], at: usize) -> usize
    requires { at ≤ length line.now }
    ensures { result ≡ length (words_at line.now at) }
{
    let mut next = at;
    let mut n = 0;
    while let Some(word) = next_word(line, next) {
        next = word.to;
        n += 1;
    }
    n
}

// How many words are left, and they as values.
fn put_numbers(out: &mut [u8], at: usize, line: &[u8], from: usize) -> Option<Told>
    requires { (from ≤ length line.now) × (at + 21 + 17 * (length line.now - from) ≤ length out.old) }
    ensures { Ran line.now (numbers (words_at line.now from)) out.old at result out.new × Inside line.now out.old result }
{
    let n = count_words(line, from);
    let to = put_byte(out, at, b' ');
    let to = put_count(out, to, n as u64);
    put_fields(out, to, Kind::Value, n, line, from)
}

// The length of an output where it is not said: the block's count, or the longest that can be lent.
fn put_length(out: &mut [u8], at: usize, count: &[u8]) -> usize
    requires { (at + length count.now < length out.old) × (at + 5 ≤ length out.old) }
    ensures { Put out.old at (spaced (length_for count.now)) out.new result }
{
    match count_in(count) {
        Some(n) => {
            if n <= 4096 {
                put_spaced(out, at, count)
            } else {
                put_spaced(out, at, b"4096")
            }
        }
        None => put_spaced(out, at, count),
    }
}

// A block's count, the length of its output, and its input.
fn put_block(out: &mut [u8], at: usize, line: &[u8], from: usize) -> Option<Told>
    requires { (from ≤ length line.now) × (at + 21 + 17 * (length line.now - from) ≤ length out.old) }
    ensures { Ran line.now (block_fields (words_at line.now from)) out.old at result out.new × Inside line.now out.old result }
{
    let count = next_word(line, from)?;
    let word = &line[count.from..count.to];
    let to = put_spaced(out, at, word);
    match next_word(line, count.to) {
        Some(output) => {
            let to = put_spaced(out, to, &line[output.from..output.to]);
            put_numbers(out, to, line, output.to)
        }
        None => {
            let to = put_length(out, to, word);
            put_numbers(out, to, line, count.to)
        }
    }
}

// What may stand behind a rate: `edition` and its number.
fn put_edition(out: &mut [u8], at: usize, line: &[u8], from: usize) -> Option<Told>
    requires { (from ≤ length line.now) × (at + 17 * (length line.now - from) ≤ length out.old) }
    ensures { Ran line.now (edition_fields (words_at line.now from)) out.old at result out.new × Inside line.now out.old result }
{
    let Some(word) = next_word(line, from) else {
        return Some(Told { next: from, to: at });
    };
    if !same(&line[word.from..word.to], b"edition") {
        return None;
    }
    put_fields(out, at, Kind::AsItIs, 1, line, word.to)
}

// A rate, and what may stand behind it.
fn put_made(out: &mut [u8], at: usize, line: &[u8], from: usize) -> Option<Told>
    requires { (from ≤ length line.now) × (at + 17 * (length line.now - from) ≤ length out.old) }
    ensures { Ran line.now (made_fields (words_at line.now from)) out.old at result out.new × Inside line.now out.old result }
{
    let told = put_fields(out, at, Kind::AsItIs, 1, line, from)?;
    put_edition(out, told.to, line, told.next)
}

fn put_tail(out: &mut [u8], at: usize, tail: Tail, line: &[u8], from: usize) -> Option<Told>
    requires { (from ≤ length line.now) × (at + 21 + 17 * (length line.now - from) ≤ length out.old) }
    ensures { Ran line.now (tail_of tail (words_at line.now from)) out.old at result out.new × Inside line.now out.old result }
{
    match tail {
        Tail::Fields(kind, n) => put_fields(out, at, kind, n, line, from),
        Tail::Numbers => put_numbers(out, at, line, from),
        Tail::Block => put_block(out, at, line, from),
        Tail::Made => put_made(out, at, line, from),
    }
}

// What stands behind a call's name.
fn put_form(out: &mut [u8], at: usize, form: Form, line: &[u8], from: usize) -> Option<Told>
    requires { (from ≤ length line.now) × (at + 21 + 17 * (length line.now - from) ≤ length out.old) }
    ensures { Ran line.now (formed form (words_at line.now from)) out.old at result out.new × Inside line.now out.old result }
{
    let told = put_fields(out, at, form.kind, form.many, line, from)?;
    put_tail(out, told.to, form.tail, line, told.next)
}

fn call_form(kind: Kind, many: usize, tail: Tail) -> Option<Form>
    ensures { result ≡ Some (form kind many tail) }
{
    Some(Form { kind, many, tail })
}

fn two_kinds(kind: Kind, many: usize, last: Kind, more: usize) -> Option<Form>
    ensures { result ≡ Some (form kind many (Tail.Fields last more)) }
{
    call_form(kind, many, Tail::Fields(last, more))
}

// The calls that change the waiting events.
fn scheduling_form(word: &[u8]) -> Option<Form>
    ensures { result ≡ form_in scheduling word.now }
{
    if same(word, b"set") {
        return two_kinds(Kind::Value, 1, Kind::AsItIs, 0);
    }
    if same(word, b"step") {
        return two_kinds(Kind::Value, 1, Kind::Time, 1);
    }
    if same(word, b"linear") {
        return two_kinds(Kind::Value, 1, Kind::Time, 1);
    }
    if same(word, b"exponential") {
        return two_kinds(Kind::Value, 1, Kind::Time, 1);
    }
    if same(word, b"target") {
        return two_kinds(Kind::Value, 1, Kind::Time, 2);
    }
    if same(word, b"curve") {
        return call_form(Kind::Time, 2, Tail::Numbers);
    }
    if same(word, b"cancel") {
        return two_kinds(Kind::Time, 1, Kind::AsItIs, 0);
    }
    if same(word, b"hold") {
        return two_kinds(Kind::Time, 1, Kind::AsItIs, 0);
    }
    None
}

fn form_of(word: &[u8]) -> Option<Form>
    ensures { result ≡ form_in rows word.now }
{
    if same(word, b"make") {
        return call_form(Kind::Value, 3, Tail::Made);
    }
    if same(word, b"block") {
        return call_form(Kind::Time, 2, Tail::Block);
    }
    if same(word, b"plain") {
        return call_form(Kind::Time, 2, Tail::Block);
    }
    if same(word, b"state") {
        return two_kinds(Kind::AsItIs, 0, Kind::AsItIs, 0);
    }
    if same(word, b"lend") {
        return two_kinds(Kind::AsItIs, 1, Kind::AsItIs, 0);
    }
    if same(word, b"poke") {
        return two_kinds(Kind::AsItIs, 1, Kind::Value, 1);
    }
    if same(word, b"cost") {
        return two_kinds(Kind::AsItIs, 0, Kind::AsItIs, 0);
    }
    scheduling_form(word)
}

// A line without its comment. One without words is empty in the session language.
fn put_call(out: &mut [u8], line: &[u8]) -> Option<usize>
    requires { 21 + 17 * length line.now ≤ length out.old }
    ensures { Wrote (translated (words_at line.now 0)) out.old 0 result out.new × Room out.old result }
{
    let Some(name) = next_word(line, 0) else {
        return Some(0);
    };
    let word = &line[name.from..name.to];
    let put = put_word(out, 0, word);
    let form = form_of(word)?;
    let told = put_form(out, put, form, line, name.to)?;
    match next_word(line, told.next) {
        Some(_) => None,
        None => Some(told.to),
    }
}

// The line in the session language; how long it is, or none where it says nothing.
pub fn translate(out: &mut [u8], line: &[u8]) -> Option<usize>
    requires { 21 + 17 * length line.now ≤ length out.old }
    ensures { Wrote (translation line.now) out.old 0 result out.new × Room out.old result }
{
    let end = scan::find(line, 0, line.len(), b'#');
    put_call(out, &line[..end])
}
