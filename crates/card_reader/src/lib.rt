// The reader: a file in parts, field by field. Beside the struct two slices are lent to it, and no one else writes to them: the window, in which a
// field is put together, and the numbers of the curves read so far.
#![tactic(auto)]

ghost use Rattle.std.specs.Prelude.{◌≡◌, true, false, ◌&&◌, min, ◌+◌, ◌^◌, ◌≤◌, ◌<◌, leb, length, take};
ghost use Rattle.rules.specs.Numbers.{store_length};
ghost use Rattle.param.specs.Param.{SoundParam};
ghost use Rattle.text.specs.Put.{Put};
ghost use Rattle.card.specs.Card.{is_accepted, is_whole, is_range, contents_turn, field_turn};
ghost use Rattle.card_reader.specs.Reader.{FieldFits, reading_of, window_length, part_length, SoundReader, SoundWindow, refused_reader, kept_reader, Opens, Does, ended, Takes, Feeds, TakesPart, Loads};

use card::{Fault, Judged, is_accepted};
use field::{
    RANGE, bounds_in, field_length, is_misplaced, is_out_of_turn, is_tag, is_whole, is_wrong,
    schedule, time_in,
};
use lines::moved;
use param::AudioParam;
use rules::{AutomationRate, Bounds, Refusal};

pub mod field; // field.rt: what stands in a field

// What is read so far, but the curves' numbers.
#[derive(Clone, Copy)]
pub struct CardReader {
    pub param: AudioParam,
    pub rate: AutomationRate,
    // by its number
    pub edition: u64,
    // whether the range has come
    pub ranged: bool,
    // the time of the event's field before
    pub before: Option<f64>,
    // where the next field begins; of a field that is refused, its own
    pub offset: usize,
    pub verdict: Result<(), Fault>,
    // how many bytes of a field that has not come whole stand in front of the window
    pub held: usize,
}

// The most bytes that a field has: how long the window is.
pub const WINDOW: usize = 65538;

// The most bytes of a part.
pub const PART: usize = 65536;

// The reader after the complete fields of some bytes, and how many bytes are done with: all, where a field is refused.
#[derive(Clone, Copy)]
pub struct Taken {
    reader: CardReader,
    used: usize,
}

// What reading a file says, and the parameter after it: the caller's where the file is refused.
#[derive(Clone, Copy)]
pub struct Loaded {
    pub says: Judged,
    pub param: AudioParam,
}

// As text's, by a loop of its own: std's copy from a slice becomes memmove here, and C's archive wants memcpy and memset alone.
fn put_word(out: &mut [u8], at: usize, word: &[u8]) -> usize
    requires { at + length word.now ≤ length out.old }
    ensures { Put out.old at word.now out.new result }
{
    let mut i = 0;
    while i < word.len() {
        out[at + i] = word[i];
        i += 1;
    }
    at + word.len()
}

impl CardReader {
    // Before the first part, for a parameter of this rate, under the edition of that number.
    pub fn open(rate: AutomationRate, edition: u64, numbers: &mut [f32]) -> CardReader
        requires { length numbers.old ≡ store_length }
        ensures { Opens rate edition result numbers.new }
    {
        curves::zero_behind(numbers, 0);
        let bounds = Bounds {
            min: 0.0,
            default: 0.0,
            max: 0.0,
        };
        // of an edition that there is not: nothing is made
        CardReader {
            param: AudioParam::with_edition(bounds, rate, 0).param,
            rate,
            edition,
            ranged: false,
            before: None,
            offset: 0,
            verdict: Ok(()),
            held: 0,
        }
    }

    // The field at hand is refused, and nothing else changes.
    fn refused(self, fault: Fault) -> CardReader
        ensures { result ≡ refused_reader fault self }
    {
        CardReader {
            verdict: Err(fault),
            ..self
        }
    }

    // The field at hand, of so many bytes, is kept.
    fn kept(self, param: AudioParam, before: Option<f64>, len: usize) -> CardReader
        requires { self.offset + len < 2 ^ 64 }
        ensures { result ≡ kept_reader self param before len }
    {
        CardReader {
            param,
            ranged: true,
            before,
            offset: self.offset + len,
            verdict: Ok(()),
            ..self
        }
    }

    // The range: as making a parameter.
    fn range_turn(self, bytes: &[u8], numbers: &[f32]) -> CardReader
        requires { SoundReader self numbers.now × FieldFits bytes.now × (is_range bytes.now ≡ true) × (self.ranged ≡ false) }
        ensures { Does (contents_turn bytes.now) self numbers.now result numbers.now }
    {
        let made = AudioParam::with_edition(bounds_in(bytes), self.rate, self.edition);
        match made.verdict {
            Ok(()) => self.kept(made.param, self.before, field_length(bytes)),
            Err(why) => self.refused(Fault::Own(why)),
        }
    }

    // An event: as the call that it stands for.
    fn event_turn(self, bytes: &[u8], numbers: &mut [f32]) -> CardReader
        requires { SoundReader self numbers.old × FieldFits bytes.now × (is_range bytes.now ≡ false) × (self.ranged ≡ true) }
        ensures { Does (contents_turn bytes.now) self numbers.old result numbers.new }
    {
        if is_out_of_turn(self.before, bytes) {
            return self.refused(Fault::OutOfTurn);
        }
        let called = schedule(self.param, bytes, numbers);
        match called.verdict {
            Ok(()) => { self.kept(called.param, Some(time_in(bytes)), field_length(bytes)) }
            Err(why) => self.refused(Fault::Own(why)),
        }
    }

    // The turn on the field that the bytes begin with.
    fn field_turn(self, bytes: &[u8], numbers: &mut [f32]) -> CardReader
        requires { SoundReader self numbers.old × (1 ≤ length bytes.now) }
        ensures { Does (field_turn bytes.now) self numbers.old result numbers.new }
    {
        if !is_tag(bytes[0]) {
            return self.refused(Fault::UnknownTag);
        }
        if is_wrong(bytes) {
            return self.refused(Fault::WrongLength);
        }
        if is_misplaced(self.ranged, bytes) {
            return self.refused(Fault::Misplaced);
        }
        if !is_whole(bytes) {
            return self.refused(Fault::CutShort);
        }
        if bytes[0] == RANGE {
            self.range_turn(bytes, &numbers[..])
        } else {
            self.event_turn(bytes, numbers)
        }
    }

    // Whether the bytes begin with a field that is to be taken.
    fn goes_on(self, bytes: &[u8]) -> bool
        ensures { result ≡ (is_accepted self.verdict && is_whole bytes.now) }
    {
        is_accepted(self.verdict) && is_whole(bytes)
    }

    // The complete fields in turn, up to one that is refused.
    fn take_fields(self, bytes: &[u8], numbers: &mut [f32]) -> Taken
        requires { SoundReader self numbers.old × (is_accepted self.verdict ≡ true) }
        ensures { Takes self numbers.old bytes.now result numbers.new }
    {
        let mut reader = self;
        let mut used = 0;
        // a step is as long as a field, so no `for`
        while reader.goes_on(&bytes[used..]) {
            reader = reader.field_turn(&bytes[used..], numbers);
            used += field_length(&bytes[used..]);
        }
        // behind a field that is refused nothing is read
        if !is_accepted(reader.verdict) {
            used = bytes.len();
        }
        Taken { reader, used }
    }

    // A part for which the window has room.
    fn absorb(self, part: &[u8], window: &mut [u8], numbers: &mut [f32]) -> CardReader
        requires { SoundReader self numbers.old × SoundWindow self window.old × (self.held + length part.now ≤ window_length) }
        ensures { Feeds part.now self numbers.old window.old result numbers.new window.new }
    {
        if !is_accepted(self.verdict) {
            return self;
        }
        let to = put_word(window, self.held, part);
        let t = self.take_fields(&window[..to], numbers);
        let mut reader = t.reader;
        reader.held = moved(window, t.used, to);
        reader
    }

    // The reader after the next part of the file, of at most 65,536 bytes; a longer one is not taken, and nothing changes.
    pub fn take(self, part: &[u8], window: &mut [u8], numbers: &mut [f32]) -> Option<CardReader>
        requires { SoundReader self numbers.old × SoundWindow self window.old }
        ensures { TakesPart (leb (length part.now) part_length) part.now self numbers.old window.old result numbers.new window.new }
    {
        if PART < part.len() {
            return None;
        }
        let mut reader = self;
        let mut from = 0;
        // a step is as long as the window has room, so no `for`
        while from < part.len() {
            let to = from + (WINDOW - reader.held).min(part.len() - from);
            reader = reader.absorb(&part[from..to], window, numbers);
            from = to;
        }
        Some(reader)
    }

    // The reader at the file's end: what is left in the window is a field cut short.
    fn end(self, window: &[u8], numbers: &mut [f32]) -> CardReader
        requires { SoundReader self numbers.old × SoundWindow self window.now }
        ensures { Does (ended (take self.held window.now)) self numbers.old result numbers.new }
    {
        if !is_accepted(self.verdict) {
            return self;
        }
        if 0 < self.held {
            return self.field_turn(&window[..self.held], numbers);
        }
        if self.ranged {
            self
        } else {
            self.refused(Fault::Misplaced)
        }
    }

    // The end of the file: its parameter, and its numbers in the store. Refused, both stay as the caller has them.
    pub fn finish(
        self,
        window: &[u8],
        numbers: &mut [f32],
        param: AudioParam,
        store: &mut [f32],
    ) -> Loaded
        requires { SoundReader self numbers.old × SoundWindow self window.now × SoundParam param }
        ensures { Loads (reading_of self numbers.old window.now) param store.old result store.new }
    {
        if store.len() != AudioParam::STORE {
            let verdict = Err(Fault::Own(Refusal::BadStore));
            return Loaded {
                says: Judged { verdict, at: 0 },
                param,
            };
        }
        let r = self.end(window, numbers);
        let verdict = r.verdict;
        let says = Judged {
            verdict,
            at: r.offset,
        };
        if is_accepted(verdict) {
            curves::write(store, 0, &numbers[..]);
            Loaded {
                says,
                param: r.param,
            }
        } else {
            Loaded { says, param }
        }
    }
}
