// The answer to one frame, handed in at once: whether it is readable, what it says, and which fault it has. Document 01, "The dock's flow"; document 02, §4.
#![tactic(auto)]

ghost use Rattle.std.specs.Prelude.{◌≡◌, [], ◌∷◌, ◌≤◌, drop};
ghost use Rattle.dock_answer.specs.Answer.{judge_answer, judge_frames, long, shape, wanted};
ghost use Rattle.dock_answer.specs.Answer.{deciding, statuses, rate_matches, signature_matches, matching, read_answer};

use frame::judgement::Judgement;
use frame::wire;
use part::Part;

// Places in an answer: the first three bytes that its first frame carries, and the first that its second does, after a first frame of one byte or of two.
const FIRST: usize = frame::PAYLOAD_AT;

const SECOND: usize = frame::PAYLOAD_AT + 1;

const THIRD: usize = frame::PAYLOAD_AT + 2;

const AFTER_ONE: usize = 1 + frame::OVERHEAD + frame::PAYLOAD_AT;

const AFTER_TWO: usize = 2 + frame::OVERHEAD + frame::PAYLOAD_AT;

// What the answer to a frame looks like: one status; 9Ah's, 06h with clock and mode; C0h's, 06h and the signature; that to a page; that to the
// last page of 40h, with a further status.
#[derive(Clone, Copy)]
pub enum Form {
    OneStatus,
    WithRate,
    WithSignature,
    OfPage,
    OfLastPage,
}

// A readable answer has the status that decides, 06h where none is another, and whether what it holds beside statuses is as the job says.
#[derive(Clone, Copy)]
pub struct Said {
    pub status: u8,
    pub matches: bool,
}

// An answer that was judged: what it says, and its fault, or Good. The fault stands beside what is decoded and not in it: the else of a `let .. else` binds
// nothing.
#[derive(Clone, Copy)]
pub struct JudgedAnswer {
    pub decoded: Option<Said>,
    pub fault: Judgement,
}

// What follows the first n bytes; nothing where there are no more.
fn after(bytes: &[u8], n: usize) -> &[u8]
    ensures { result.now ≡ drop n bytes.now }
{
    &bytes[n.min(bytes.len())..]
}

fn judge_one(bytes: &[u8], n: usize) -> Judgement
    ensures { result ≡ judge_frames (n ∷ []) bytes.now }
{
    wire::judge_reply(bytes, n, true)
}

fn judge_two(bytes: &[u8], n: usize, m: usize) -> Judgement
    requires { n ≤ 256 }
    ensures { result ≡ judge_frames (n ∷ m ∷ []) bytes.now }
{
    let front = wire::judge_reply(bytes, n, false);
    if front.is_good() {
        return judge_one(after(bytes, n + frame::OVERHEAD), m);
    }
    front
}

fn judge_answer(form: Form, bytes: &[u8]) -> Judgement
    ensures { result ≡ judge_answer form bytes.now }
{
    let first = lent::byte_at(bytes, FIRST);
    let second = lent::byte_at(bytes, SECOND);
    match form {
        Form::WithRate if first == 0x06 => judge_one(bytes, 3),
        Form::WithSignature if first == 0x06 => judge_two(bytes, 1, 22),
        Form::OfLastPage if first == 0x06 && second == 0x06 => judge_two(bytes, 2, 1),
        Form::OneStatus | Form::WithRate | Form::WithSignature => judge_one(bytes, 1),
        Form::OfPage | Form::OfLastPage => judge_one(bytes, 2),
    }
}

// How long the answer is, by the first two bytes that its first frame carries.
fn whole(form: Form, first: u8, second: u8) -> usize
    ensures { result ≡ long (shape form first second) }
{
    match form {
        Form::WithRate if first == 0x06 => 3 + frame::OVERHEAD,
        Form::WithSignature if first == 0x06 => 1 + frame::OVERHEAD + 22 + frame::OVERHEAD,
        Form::OfLastPage if first == 0x06 && second == 0x06 => {
            2 + frame::OVERHEAD + 1 + frame::OVERHEAD
        }
        Form::OneStatus | Form::WithRate | Form::WithSignature => 1 + frame::OVERHEAD,
        Form::OfPage | Form::OfLastPage => 2 + frame::OVERHEAD,
    }
}

// How many bytes are still wanted of an answer that has begun so, before it can be readable.
#[tactic(auto, unfolding(crate::specs::Answer::wanted))]
pub fn wanted(form: Form, bytes: &[u8]) -> usize
    ensures { result ≡ wanted form bytes.now }
{
    let n = whole(
        form,
        lent::byte_at(bytes, FIRST),
        lent::byte_at(bytes, SECOND),
    );
    n.saturating_sub(bytes.len())
}

// The first of three statuses that is not 06h.
fn first_other(first: u8, second: u8, third: u8) -> u8
    ensures { result ≡ deciding (first ∷ second ∷ third ∷ []) }
{
    match (first, second) {
        (0x06, 0x06) => third,
        (0x06, _) => second,
        _ => first,
    }
}

fn status_of(form: Form, bytes: &[u8]) -> u8
    ensures { result ≡ deciding (statuses form bytes.now) }
{
    let first = lent::byte_at(bytes, FIRST);
    let second = lent::byte_at(bytes, SECOND);
    match form {
        Form::OneStatus | Form::WithRate | Form::WithSignature => first,
        Form::OfPage => first_other(first, second, 0x06),
        Form::OfLastPage => first_other(first, second, lent::byte_at(bytes, AFTER_TWO)),
    }
}

fn is_rate(part: Part, supply: u32, clock: u8, mode: u8) -> bool
    ensures { result ≡ rate_matches part supply clock mode }
{
    u32::from(clock) == part.clock && mode == part::rate::mode(part, supply)
}

fn is_signature(part: Part, bytes: &[u8]) -> bool
    ensures { result ≡ signature_matches part bytes.now }
{
    lent::is_same_at(bytes, AFTER_ONE, &part::signature::bytes(part))
}

#[tactic(auto, unfolding(crate::specs::Answer::matching))]
fn is_matching(part: Part, supply: u32, form: Form, bytes: &[u8]) -> bool
    ensures { result ≡ matching part supply form bytes.now }
{
    match form {
        Form::WithRate => {
            let clock = lent::byte_at(bytes, SECOND);
            is_rate(part, supply, clock, lent::byte_at(bytes, THIRD))
        }
        Form::WithSignature => is_signature(part, bytes),
        Form::OneStatus | Form::OfPage | Form::OfLastPage => true,
    }
}

pub fn read(part: Part, supply: u32, form: Form, bytes: &[u8]) -> JudgedAnswer
    ensures { result ≡ read_answer part supply form bytes.now }
{
    let fault = judge_answer(form, bytes);
    if fault.is_good() {
        let said = Said {
            status: status_of(form, bytes),
            matches: is_matching(part, supply, form, bytes),
        };
        return JudgedAnswer {
            decoded: Some(said),
            fault,
        };
    }
    JudgedAnswer {
        decoded: None,
        fault,
    }
}
