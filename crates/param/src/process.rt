// The block: refused, of one value, or walked.
ghost use Rattle.std.specs.Prelude.{◌≡◌, true, false, List, ◌^◌, ◌≤◌, ◌<◌, length, Float};
ghost use Rattle.rules.specs.Queue.{lengths_of};
ghost use Rattle.rules.specs.Block.{rests_for};
ghost use Rattle.timeline.specs.Timeline.{Neat, waiting, first_of};
ghost use Rattle.block.specs.Asked.{asked, Fitting};
ghost use Rattle.param.specs.Param.{param_of, SoundParam};
ghost use Rattle.param.specs.Processed.{length_of_head, unplayed, afterwards, Playable, Plays, Gives, Processes};

use crate::{AudioParam, Processed, ceiling_of};
use rules::{BlockInfos, Event, Finished, Refusal};
use timeline::AudioParamEventTimeline;

// What the events of a block leave, and what the block says of them.
#[derive(Clone, Copy)]
pub struct Played {
    pub intrinsic: f32,
    pub last: Option<Finished>,
    // how many are finished, and what the one behind them has become
    pub at: usize,
    pub head: Option<Event>,
    pub steps: usize,
    pub one: bool,
}

// How many numbers of the store are the head's.
#[tactic(auto, unfolding(crate::specs::Processed::length_of_head))]
fn length_of_head(head: Option<Event>) -> usize
    ensures { result ≡ length_of_head head }
{
    head.map_or(0, timeline::length_of)
}

// How many numbers of the store are the waiting curves'. Mostly one event waits: a call with the whole queue would copy it.
fn numbers_waiting(q: AudioParamEventTimeline) -> usize
    requires { Neat q × (lengths_of (waiting q) < 2 ^ 64) }
    ensures { result ≡ lengths_of (waiting q) }
{
    let n = q.len;
    if n <= 1 {
        return length_of_head(q.peek());
    }
    q.lengths()
}

impl AudioParam {
    // A refused block: nothing changes.
    pub fn refused_block(self, verdict: Result<(), Refusal>) -> Processed
        ensures { result ≡ unplayed self verdict }
    {
        Processed {
            verdict,
            param: self,
            steps: 0,
            current: 0.0,
            one: false,
        }
    }

    // What an answered block gives back, by what its events left.
    fn after(
        self,
        infos: BlockInfos,
        timeline: AudioParamEventTimeline,
        played: Played,
    ) -> Processed
        ensures { result ≡ afterwards self infos timeline played }
    {
        let bounds = self.bounds;
        let rate = self.rate;
        let edition = self.edition;
        let last = played.last;
        let param = AudioParam {
            bounds,
            rate,
            edition,
            intrinsic: played.intrinsic,
            timeline,
            block: Some(infos.time),
            end: Some(infos.next),
            last,
        };
        Processed {
            verdict: Ok(()),
            param,
            steps: played.steps,
            current: mix::mixed_value(bounds, 0.0, self.intrinsic),
            one: played.one,
        }
    }

    // The same, by the queue as it was, where no event is finished: then no number moves.
    fn staying(self, infos: BlockInfos, played: Played, part: &mut [f32]) -> Processed
        requires { Neat self.timeline × (lengths_of (param_of self).queue ≤ length part.old) × (played.at ≡ 0) }
        ensures { Gives self infos played part.old result part.new }
    {
        let q = self.timeline;
        let head = played.head;
        let timeline = q.replace_peek(head);
        curves::zero_behind(part, numbers_waiting(q));
        self.after(infos, timeline, played)
    }

    // The same where some are: they are taken out, with their numbers.
    pub fn leaving(self, infos: BlockInfos, played: Played, part: &mut [f32]) -> Processed
        requires { Neat self.timeline × (lengths_of (param_of self).queue ≤ length part.old) }
        ensures { Gives self infos played part.old result part.new }
    {
        let q = self.timeline;
        let rest = curves::consume(q, played.at, part);
        let head = played.head;
        let timeline = rest.replace_peek(head);
        self.after(infos, timeline, played)
    }

    // A one-valued block: the intrinsic value, one step.
    fn rest(self, infos: BlockInfos, input: &[f32], output: &mut [f32]) -> Played
        requires { Fitting infos input.now output.old }
        ensures { (part : List Float) → Plays self infos true input.now output.old part result output.new }
    {
        block::mix_value(self.bounds, infos, self.intrinsic, input, output);
        let rate = self.rate;
        let last = self.last;
        Played {
            intrinsic: self.intrinsic,
            last,
            at: 0,
            head: None,
            steps: 1,
            one: block::says_one(rate, true, input.len()),
        }
    }

    // A block into which heads reach: they are taken in turn, and leave their values in the output, to be mixed there.
    fn walk(self, infos: BlockInfos, input: &[f32], output: &mut [f32], part: &[f32]) -> Played
        requires { Playable self infos input.now output.old part.now }
        ensures { Plays self infos false input.now output.old part.now result output.new }
    {
        let q = self.timeline;
        let last = self.last;
        let values = &mut output[..infos.count];
        let done = automation::compute_buffer(infos, self.intrinsic, last, values, q, part);
        let walk = done.walk;
        block::mix_values(self.bounds, infos, input, output);
        let rate = self.rate;
        let last = walk.last;
        let head = done.head;
        Played {
            intrinsic: walk.intrinsic,
            last,
            at: done.at,
            head,
            steps: walk.steps,
            one: block::says_one(rate, false, input.len()),
        }
    }

    // An answered block's samples, and what its events leave.
    fn play(self, infos: BlockInfos, input: &[f32], output: &mut [f32], part: &[f32]) -> Played
        requires { Playable self infos input.now output.old part.now }
        ensures { Plays self infos (rests_for infos (first_of (param_of self).queue)) input.now output.old part.now result output.new }
    {
        let q = self.timeline;
        if block::rests_for(infos, q.peek()) {
            self.rest(infos, input, output)
        } else {
            self.walk(infos, input, output, part)
        }
    }

    // One block of `count` samples from `block_time` on: its samples are written to the first places of the output, mixed with the input.
    pub fn process(
        self,
        block_time: f64,
        period: f64,
        count: usize,
        input: &[f32],
        output: &mut [f32],
        store: &mut [f32],
    ) -> Processed
        requires { SoundParam self }
        ensures { Processes self store.old (asked block_time period count input.now output.old) result output.new store.new }
    {
        let under = self.edition;
        let block = self.block;
        let verdict = refusals::block::verdict(
            ceiling_of(under),
            block,
            block_time,
            period,
            count,
            input.len(),
            output.len(),
            store.len() == AudioParam::STORE,
        );
        let Ok(()) = verdict else {
            return self.refused_block(verdict);
        };
        let rate = self.rate;
        let infos = block::infos_of(rate, block_time, period, count);
        let played = self.play(infos, input, output, &store[..]);
        if played.at == 0 {
            return self.staying(infos, played, store);
        }
        self.leaving(infos, played, store)
    }
}
