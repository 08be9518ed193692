//! Injected failures with counts of the calls so far: which calls fail, where a source ends, what may be refused.

ghost use Rattle.std.specs.Prelude.{◌≡◌, IfOk};

use crate::OutOfMemory;
use crate::fails::{Fail, FailKind};
use std::alloc::Global;

/// A failure, and how many calls of its kind on its name are known.
#[derive(Drop)]
pub struct Planned {
    pub fail: Fail,
    pub seen: u64,
}

impl Planned {
    ghost use Rattle.outside_io.specs.Fails.{planned, seen_more, next_fails, due_of, fails_of, end_of, refuses};

    /// Failures of which no call is known.
    pub fn all(alloc: Global, fails: Vec<Fail>) -> Result<Vec<Planned>, OutOfMemory>
        ensures { IfOk result (λ plans. plans.items ≡ planned fails.items) }
    {
        let mut plans = Vec::with_capacity(alloc, fails.len())?;
        for fail in fails {
            plans.push(Planned { fail, seen: 0 })?;
        }
        Ok(plans)
    }

    /// Counts a call of that kind on that name, and answers whether it fails.
    pub fn call(plans: &mut [Planned], kind: FailKind, name: &str) -> bool
        ensures failing { result ≡ next_fails kind name.now plans.old }
        ensures seen { plans.new ≡ seen_more kind name.now 1 plans.old }
        ensures fails { fails_of plans.new ≡ fails_of plans.old }
    {
        let fails = Planned::next_fails(plans, kind, name);
        Planned::count(plans, kind, name, 1);
        fails
    }

    /// Counts `more` calls of that kind on that name.
    pub fn count(plans: &mut [Planned], kind: FailKind, name: &str, more: u64)
        ensures seen { plans.new ≡ seen_more kind name.now more plans.old }
        ensures fails { fails_of plans.new ≡ fails_of plans.old }
    {
        for plan in plans.iter_mut() {
            if plan.fail.is_of(kind, name) {
                plan.seen = plan.seen.saturating_add(more);
            }
        }
    }

    /// Whether the next call of that kind on that name fails.
    fn next_fails(plans: &[Planned], kind: FailKind, name: &str) -> bool
        ensures { result ≡ next_fails kind name.now plans.now }
    {
        for plan in plans {
            if plan.fail.is_of(kind, name) && plan.seen.saturating_add(1) == plan.fail.nth {
                return true;
            }
        }
        false
    }

    /// In how many calls of that kind on that name from now on the failing ones come.
    pub fn due(
        alloc: Global,
        plans: &[Planned],
        kind: FailKind,
        name: &str,
    ) -> Result<Vec<u64>, OutOfMemory>
        ensures { IfOk result (λ due. due.items ≡ due_of kind name.now plans.now) }
    {
        let mut due = Vec::new(alloc);
        for plan in plans {
            if plan.fail.is_of(kind, name) && plan.seen < plan.fail.nth {
                due.push(plan.fail.nth - plan.seen)?;
            }
        }
        Ok(due)
    }

    /// The offset from which on a source of that name gives nothing.
    pub fn end(plans: &[Planned], name: &str) -> u64
        ensures { result ≡ end_of (fails_of plans.now) name.now }
    {
        let mut end = u64::MAX;
        for plan in plans {
            if plan.fail.is_of(FailKind::EndAt, name) && plan.fail.nth < end {
                end = plan.fail.nth;
            }
        }
        end
    }

    /// Whether a sink of that name may be refused.
    pub fn may_refuse(plans: &[Planned], name: &str) -> bool
        ensures { result ≡ refuses (fails_of plans.now) name.now }
    {
        for plan in plans {
            if plan.fail.is_of(FailKind::AbsentSink, name) {
                return true;
            }
        }
        false
    }
}
