// The meaning of a sheet: its equations over ticks and nodes, the verdicts, and that exactly one set of values meets them.
#![tactic(auto)]

#[derive(Clone, Copy, PartialEq, Eq, Debug)]
pub enum Verdict {
    Pass,
    Fail,
    Caller,
    Body,
}
