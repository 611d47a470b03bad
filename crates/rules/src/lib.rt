// The answers that the definitions of specs/ and all code share. There is no code here.
#![tactic(auto)]

// A TLV: its tag, and where its value starts and stops.
#[derive(Clone, Copy, PartialEq, Eq)]
pub struct Tlv {
    pub tag: u8,
    pub start: usize,
    pub stop: usize,
}

// What stands from a place up to an end.
#[derive(Clone, Copy, PartialEq, Eq)]
pub struct Span {
    pub from: usize,
    pub end: usize,
}

// One pair of a value: bytes as they stand, from a place up to another, or a variable's number and the place after it.
#[derive(Clone, Copy, PartialEq, Eq)]
pub enum Pair {
    Text(usize, usize),
    Number(u8, usize),
    Broken,
}

// What a value holds: TLVs of a container of some kind, from a place on; data; or less than its tag asks.
#[derive(Clone, Copy, PartialEq, Eq)]
pub enum Body {
    Inner(usize, usize),
    Leaf,
    Short,
}

// A TLV as one class of the loader sees it: at fault, passed over, or gone into.
#[derive(Clone, Copy, PartialEq, Eq)]
pub enum Look {
    Fault,
    Over,
    Into(usize, usize),
}

// Where the loader rejects a page: a class from 1 to 7, and the place of its first fault.
#[derive(Clone, Copy, PartialEq, Eq)]
pub struct Rejection {
    pub class: u8,
    pub place: usize,
}

// What an anchor reference means on a page: one of its units, an anchor that it lacks, or another page.
#[derive(Clone, Copy, PartialEq, Eq)]
pub enum Target {
    Unit(usize),
    Lacking,
    Other,
}

// What the handler does: one of the four system actions, or a branch to the reference that stands from a place up to another.
// Pass: nothing, so that the search goes on.
#[derive(Clone, Copy, PartialEq, Eq)]
pub enum Action {
    Pass,
    Next,
    Quit,
    Back,
    Retry,
    Go(usize, usize),
}

// What the cases of a branch come to: the reference to follow, no branch, or a variable that is undefined.
#[derive(Clone, Copy, PartialEq, Eq)]
pub enum Choice {
    Follow(usize, usize),
    Stay,
    Unknown,
}

// What is wrong with the numbers that a byte code names, from nothing to the worst.
#[derive(Clone, Copy, PartialEq, Eq, PartialOrd, Ord)]
pub enum Complaint {
    Nothing,
    Undefined,
    Secured,
    Misused,
}

// A response: its general result, and the TLV after the result where one stands there.
#[derive(Clone, Copy, PartialEq, Eq)]
pub struct Reply {
    pub general: u8,
    pub after: Option<Tlv>,
}

// Why a call or a step is refused. Numbers.antt gives the number, what it leaves, and the code for variable '05'.
#[derive(Clone, Copy, PartialEq, Eq)]
pub enum Refusal {
    Syntax,
    Variable,
    Anchor,
    Memory,
    Security,
    Disallowed,
    Buffer,
    Call,
    Response,
    State,
}

// What a step, a run or a response comes to. A command has the length that it takes in the lent buffer.
#[derive(Clone, Copy, PartialEq, Eq)]
pub enum Outcome {
    On,
    Command(usize),
    Page,
    Ended,
    Refused(Refusal),
}

// Why no page was loaded: the loader rejects it, or the call is refused.
#[derive(Clone, Copy, PartialEq, Eq)]
pub enum LoadError {
    Faulty(Rejection),
    Unloaded(Refusal),
}

// A step's answer, with the unit and the tag of its byte code: '00' at a unit's end. Both are 0 where no step was taken.
#[derive(Clone, Copy, PartialEq, Eq)]
pub struct Stepped {
    pub outcome: Outcome,
    pub unit: usize,
    pub tag: u8,
}

// A run's answer, with the steps that it took.
#[derive(Clone, Copy, PartialEq, Eq)]
pub struct Ran {
    pub outcome: Outcome,
    pub count: usize,
}

// A read's answer: 0 and the value with its type, zeros past it; or a number and zeros.
#[derive(Clone, Copy)]
pub struct Shown {
    pub number: u8,
    pub valuetype: u8,
    pub length: usize,
    pub bytes: [u8; 255],
}
