//! The answers of calls on a `Cx`, sorted by what they mean for the call at work.
ghost use Rattle.std.specs.Prelude.{◌≡◌, Ok, Err, IfOk, IfErr, MatchOption};
ghost use Rattle.author_bodies.specs.Comes.{RefusedOther};

use rt_values::OutOfMemory;
use run_records::CxFault;

/// The answer of a call that is refused for want of memory alone.
pub fn or_out_of_memory<T: Drop>(answer: Result<T, CxFault>) -> Result<T, OutOfMemory>
    ensures value { IfOk result (λ value. answer ≡ Ok value) }
{
    match answer {
        Ok(value) => Ok(value),
        Err(_) => Err(OutOfMemory),
    }
}

/// The answer of a call that may be refused for another cause, too: none then. The `Cx` keeps the
/// refusal, and the call at work ends.
pub fn unless_refused<T: Drop>(answer: Result<T, CxFault>) -> Result<Option<T>, OutOfMemory>
    ensures value { IfOk result (λ value.
        MatchOption value (RefusedOther answer) (λ value. answer ≡ Ok value)) }
{
    match answer {
        Ok(value) => Ok(Some(value)),
        Err(CxFault::OutOfMemory) => Err(OutOfMemory),
        Err(_) => Ok(None),
    }
}
