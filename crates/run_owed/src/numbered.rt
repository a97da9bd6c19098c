//! The orders under which scopes are entered, each number once.
ghost use Rattle.std.specs.Prelude.{◌≡◌, ◌+◌, ◌≤◌, IfSome};

use rt_sched::ScopeOrder;
use rt_values::ScopeId;

/// The order of a scope and the number after it, where the number is no less than the next one and the
/// height is one of the scheduler's.
pub(crate) fn entry_for(next: u64, scope: u64, height: u64) -> Option<(ScopeOrder, u64)>
    ensures fresh { IfSome result (λ entry. next ≤ scope) }
    ensures height { IfSome result (λ entry. entry.0.height ≡ height) }
    ensures id { IfSome result (λ entry. entry.0.id.0 ≡ scope) }
    ensures after { IfSome result (λ entry. entry.1 ≡ scope + 1) }
{
    if scope < next {
        return None;
    }
    let after = scope.checked_add(1)?;
    match u32::try_from(height) {
        Ok(low) => Some((ScopeOrder::new(low, ScopeId(scope)), after)),
        Err(_) => None,
    }
}
