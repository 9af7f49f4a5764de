// A record's numbers, under document 01's letters.
use rules::Kind;

// S scheduled, A actual, J adjustment, N ancillary, O obligation, M maximum, F and H the scheduled and the hour-ahead multiplier.
#[derive(Clone, Copy, Debug, PartialEq, Eq)]
pub struct Entry {
    pub kind: Kind,
    pub s: i64,
    pub a: i64,
    pub j: i64,
    pub n: i64,
    pub o: i64,
    pub m: i64,
    pub f: i64,
    pub h: i64,
}
