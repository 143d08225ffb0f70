//! One job and two takers. Both ask for it at once, and one of them at most gets it.
ghost use Rattle.std.specs.Prelude.{◌≡◌, Some, IfOk, IfSome};
ghost use Rattle.async_cell_model.specs.Machine.{content};
ghost use Rattle.async_cell_history.specs.History.{IsTake, OnlyMakes, Took};

use crate::Host;
use async_cell_sync::{Author, Blank, Kept, Owner, Protocol, Refusal, TaskWaker, Witness, laws};
use std::marker::Brand;
use std::thread::join;

/// The number that the first taker signs with.
struct First;

impl Author for First {
    ghost number = { 1 };
}

/// The number that the second taker signs with.
struct Second;

impl Author for Second {
    ghost number = { 2 };
}

/// Two threads ask for one job. Never do both get it.
pub fn share<R: Host>(rt: R) -> Result<(Option<u64>, Option<u64>), Refusal>
    ensures once { IfOk result (λ both. IfSome both.0 (λ _. IfSome both.1 (λ _. ⊥))) }
{
    let job = Blank::new(rt.alloc(), Some(7));
    share_named::<Brand, R>(rt, job)
}

/// Does so on the cell that `N` names.
fn share_named<N: Protocol<u64, TaskWaker> + Send + Sync, R: Host>(
    rt: R,
    job: Blank<u64, TaskWaker>,
) -> Result<(Option<u64>, Option<u64>), Refusal>
    requires named { N.named ≡ Some job }
    requires rule { IfSome (content job.start.cell) N.holds }
    requires only { OnlyMakes N.may IsTake }
    requires may { N.may Kept.TryTake }
    ensures once { IfOk result (λ both. IfSome both.0 (λ _. IfSome both.1 (λ _. ⊥))) }
{
    let (owner, seen) = Owner::<u64, R, N>::witnessed(rt.alloc(), job, rt)?;
    let other = owner.another()?;
    let mut one = seen.again();
    one.sign_as::<First>();
    let mut two = seen;
    two.sign_as::<Second>();
    let ((first, one), (second, two)) = join(
        &rt,
        move || -> (Option<u64>, Witness<u64, TaskWaker, N>)
            requires { N.may Kept.TryTake × (one.author ≡ 1) }
            ensures { IfSome result.0 (λ v. Took 1 v result.1) }
        { (ask(&owner, &mut one), one) },
        move || -> (Option<u64>, Witness<u64, TaskWaker, N>)
            requires { N.may Kept.TryTake × (two.author ≡ 2) }
            ensures { IfSome result.0 (λ v. Took 2 v result.1) }
        { (ask(&other, &mut two), two) },
    );
    let seen = one.longer(&two);
    seen.lawful();
    laws::a_seen_take_is_of_its_author::<u64, TaskWaker, N>();
    laws::of_takers_alone_one_gets::<u64, TaskWaker, N>();
    Ok((first, second))
}

/// Takes the job, if it is there.
fn ask<N: Protocol<u64, TaskWaker>, R: Host>(
    owner: &Owner<u64, R, N>,
    seen: &mut Witness<u64, TaskWaker, N>,
) -> Option<u64>
    requires may { N.may Kept.TryTake }
    ensures took { IfSome result (λ v. Took seen.old.author v seen.new) }
{
    let taken = owner.try_take_as(seen)?;
    seen.lawful();
    laws::a_seen_take_is_of_its_author::<u64, TaskWaker, N>();
    Some(taken)
}
