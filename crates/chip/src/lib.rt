// The software chip: document 01, "Frames" ("Collecting"), "Phases" and "Refusal numbers". What it is, and one step that takes a byte, a gap or power-on.
#![tactic(auto)]

pub mod events;

use chip_reply::Sent;
use chip_state::Chip;
use frame::judgement::Judgement;
use part::refusal::Refusal;

#[derive(Clone, Copy)]
pub enum Event {
    Byte(u8),
    Gap,
    PowerOn,
}

// What a step leaves beside what is lent: the bytes and frames of its reply, or why it was refused; the judgement of the frame that it answers, where that was
// judged bad (else Good), and the chip.
#[derive(Clone, Copy)]
pub struct Step {
    pub answer: Result<Sent, Refusal>,
    pub fault: Judgement,
    pub chip: Chip,
}
