// The results for C: one struct a call, without padding, and each outcome of a call laid out in it.
// A field that an outcome does not use is 0. C wants the four structs, their numbers, and `as`, since no usize is a u64 by From.
ghost use Rattle.std.specs.Prelude.{◌≡◌};
ghost use Rattle.calls.specs.Values.{decision_values, end_values, start_values, limit_values};
ghost use Rattle.host.specs.Layout.{decision_of, ends_of, starts_of, ceiling_of};

use calls::{Answer, Found};
use records::Refusal;

#[repr(C)]
#[derive(Clone, Copy, Default)]
pub struct DecisionForC {
    pub refusal: u32,
    pub yes: u32,
    pub place: u64,
    pub figure: u64,
    pub steps: u64,
}

#[repr(C)]
#[derive(Clone, Copy, Default)]
pub struct EndsForC {
    pub refusal: u32,
    pub unused: u32,
    pub place: u64,
    pub ends: u64,
    pub figure: u64,
}

#[repr(C)]
#[derive(Clone, Copy, Default)]
pub struct StartsForC {
    pub refusal: u32,
    pub unused: u32,
    pub place: u64,
    pub starts: u64,
}

#[repr(C)]
#[derive(Clone, Copy, Default)]
pub struct CeilingForC {
    pub refusal: u32,
    pub unused: u32,
    pub place: u64,
    pub ceiling: u64,
}

impl From<Result<Answer, Refusal>> for DecisionForC {
    ghost from_gives = { λ decision laid. laid ≡ decision_of (decision_values decision) };

    #[tactic(auto, unfolding(crate::specs::Layout::decision_of))]
    fn from(decision: Result<Answer, Refusal>) -> DecisionForC {
        match decision {
            Ok(answer) => DecisionForC {
                yes: u32::from(answer.yes),
                figure: answer.figure as u64,
                steps: answer.steps as u64,
                ..DecisionForC::default()
            },
            Err(refusal) => DecisionForC {
                refusal: u32::from(refusal.reason),
                place: refusal.place as u64,
                ..DecisionForC::default()
            },
        }
    }
}

// A decision laid out.
pub fn lay_decision(decision: Result<Answer, Refusal>) -> DecisionForC
    ensures { result ≡ decision_of (decision_values decision) }
{
    decision.into()
}

impl From<Result<Found, Refusal>> for EndsForC {
    ghost from_gives = { λ list laid. laid ≡ ends_of (end_values list) };

    #[tactic(auto, unfolding(crate::specs::Layout::ends_of))]
    fn from(list: Result<Found, Refusal>) -> EndsForC {
        match list {
            Ok(found) => EndsForC {
                ends: found.ends as u64,
                figure: found.figure as u64,
                ..EndsForC::default()
            },
            Err(refusal) => EndsForC {
                refusal: u32::from(refusal.reason),
                place: refusal.place as u64,
                ..EndsForC::default()
            },
        }
    }
}

// A list of ends laid out.
pub fn lay_ends(list: Result<Found, Refusal>) -> EndsForC
    ensures { result ≡ ends_of (end_values list) }
{
    list.into()
}

impl From<Result<usize, Refusal>> for StartsForC {
    ghost from_gives = { λ list laid. laid ≡ starts_of (start_values list) };

    #[tactic(auto, unfolding(crate::specs::Layout::starts_of))]
    fn from(list: Result<usize, Refusal>) -> StartsForC {
        match list {
            Ok(starts) => StartsForC {
                starts: starts as u64,
                ..StartsForC::default()
            },
            Err(refusal) => StartsForC {
                refusal: u32::from(refusal.reason),
                place: refusal.place as u64,
                ..StartsForC::default()
            },
        }
    }
}

// A list of starts laid out.
pub fn lay_starts(list: Result<usize, Refusal>) -> StartsForC
    ensures { result ≡ starts_of (start_values list) }
{
    list.into()
}

impl From<Result<usize, Refusal>> for CeilingForC {
    ghost from_gives = { λ limit laid. laid ≡ ceiling_of (limit_values limit) };

    #[tactic(auto, unfolding(crate::specs::Layout::ceiling_of))]
    fn from(limit: Result<usize, Refusal>) -> CeilingForC {
        match limit {
            Ok(ceiling) => CeilingForC {
                ceiling: ceiling as u64,
                ..CeilingForC::default()
            },
            Err(refusal) => CeilingForC {
                refusal: u32::from(refusal.reason),
                place: refusal.place as u64,
                ..CeilingForC::default()
            },
        }
    }
}

// A ceiling laid out.
pub fn lay_ceiling(limit: Result<usize, Refusal>) -> CeilingForC
    ensures { result ≡ ceiling_of (limit_values limit) }
{
    limit.into()
}
