// What all crates share of the rules: the two numbers that every call gives back, what can happen
// at a time, and document 01's highest time and IMSI. What the gate does is in specs/, and why that
// is so in proofs/.
#![tactic(auto)]

pub const LATEST: u32 = 4000000000;

pub const HIGHEST_IMSI: u64 = 999999999999999;

// The two numbers that every call gives back.
#[repr(C)]
#[derive(Clone, Copy)]
pub struct Answer {
    pub number: u32,
    pub second: u32,
}

// What became of a request: granted, no answer, or rejected with a cause, whether a second network
// exists, 1 where one does, and the cause's column: 0 MM, 1 GMM, 2 SM, 3 RP, 4 CP.
#[derive(Clone, Copy)]
pub enum Outcome {
    Granted,
    Silent,
    Rejected(u32, u32, u32),
}

// What happens at a time: a request, an outcome of a service, service 2 dropped, or nothing but the
// clock.
#[derive(Clone, Copy)]
pub enum Event {
    Ask(u32),
    Outcome(u32, Outcome),
    Dropped,
    Tick,
}
