// Tests of the scales at their edges.
//
// Each test is a table of values with the positions that the definitions give, worked out by hand.
// The two functions here read a scale and an answer for the tests. The one is proved for every scale.
#![tactic(auto)]

ghost use Rattle.std.specs.Prelude.{◌≡◌, Some, None, Ok, Err, MatchBool};
ghost use Rattle.scales.specs.Stops.{number};

use scales::refusal::Refusal;
use scales::scale::Scale;

#[cfg(test)]
mod grades;
#[cfg(test)]
mod readings;
#[cfg(test)]
mod wholes;
#[cfg(test)]
mod windows;

// Whether v stands at p, read both ways: v is placed at p, and so is the value at p.
pub fn stands_at<S: Scale>(scale: &S, v: S::Value, p: u32) -> bool
    ensures { MatchBool result (S.Scale.on scale.now v × (S.Scale.position scale.now v ≡ p)) (S.Scale.on scale.now v × (S.Scale.position scale.now v ≡ p) → ⊥) }
{
    let Ok(there) = scale.value(p) else {
        return false;
    };
    let Ok(back) = scale.place(there) else {
        return false;
    };
    let Ok(at) = scale.place(v) else {
        return false;
    };
    at == p && back == p
}

// The number and the place of a refusal, as users are told them and the tests list them.
pub fn refused<T: Drop>(answer: Result<T, Refusal>) -> Option<(u8, u32)>
    ensures { elim answer [ Ok _ ↦ result ≡ None | Err e ↦ result ≡ Some (number e.stop, e.place) ] }
{
    let refusal = answer.err()?;
    Some((refusal.stop.number(), refusal.place))
}
