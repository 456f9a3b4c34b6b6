// A schedule file for the memory card (02, C-11): its rules (specs/) and what follows from them (proofs/). Here is what a call says of a file.
#![tactic(auto)]

ghost use Rattle.std.specs.Prelude.{◌≡◌};
ghost use Rattle.card.specs.Card.{fault_number, is_accepted};

use rules::Refusal;

// Why a file is refused, or a schedule that is to be written.
#[derive(Clone, Copy)]
pub enum Fault {
    UnknownTag,
    WrongLength,
    // an event before the range, a second range, or none by the end
    Misplaced,
    CutShort,
    // a held event, a block already answered, a curve number that is not finite
    Unwritable,
    // an event earlier than the one before it, a time of -0, a time constant of 0
    OutOfTurn,
    // one of document 01's
    Own(Refusal),
    // the slice is too short for what is to be written
    NoRoom,
}

// What a call says, and where: the offset of a field that is refused, an event's place in writing; answered, how many bytes the file has.
#[derive(Clone, Copy)]
pub struct Judged {
    pub verdict: Result<(), Fault>,
    pub at: usize,
}

// 02's number, or document 01's.
#[tactic(auto, unfolding(crate::specs::Card::fault_number))]
pub fn number_of(fault: Fault) -> u8
    ensures { result ≡ fault_number fault }
{
    match fault {
        Fault::UnknownTag => 20,
        Fault::WrongLength => 21,
        Fault::Misplaced => 22,
        Fault::CutShort => 23,
        Fault::Unwritable => 24,
        Fault::OutOfTurn => 28,
        Fault::Own(why) => refusals::number_of(why),
        Fault::NoRoom => 101,
    }
}

#[tactic(auto, unfolding(crate::specs::Card::is_accepted))]
pub fn is_accepted(verdict: Result<(), Fault>) -> bool
    ensures { result ≡ is_accepted verdict }
{
    match verdict {
        Ok(()) => true,
        Err(_) => false,
    }
}
