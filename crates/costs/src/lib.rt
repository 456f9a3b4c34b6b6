// The totals of a session, as definitions and code speak of them. No code: what a session costs is in specs/ and proofs/.
#![tactic(auto)]

// What the calls of a session cost, added up.
#[derive(Clone, Copy)]
pub struct Totals {
    pub steps: u64,
    pub blocks: u64,
    pub stored: u64,
    pub finished: u64,
    pub cancelled: u64,
    pub turned: u64,
}
