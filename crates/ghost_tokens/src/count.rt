//! `Count`, which counts the permits that are given out, and `Permit`, one of these permits.
ghost use Rattle.std.specs.Prelude.{◌≡◌, ℕ, ◌+◌, ◌-◌, ◌<◌, Option, None, IsSome};
ghost use base.Fraction.{full_share};
ghost use denote.Sharing.{one};
ghost use Rattle.ghost_tokens.specs.Owned.{count_owns, permit_owns};

use std::marker::{Model, PhantomData};

/// The number of permits that are given out under the name of this count, together with the right
/// to give a permit and to take a permit back. A count without a name is only a number: no permit
/// proves anything about that number. Keep a count where only one thread at a time has access to
/// it.
#[derive(Drop)]
pub struct Count {
    marker: PhantomData<()>,
    /// The name of the count, if it has one.
    pub ghost name: { Option ℕ },
    /// How many permits are given out.
    pub ghost out: { ℕ },
}

impl Model for Count {
    ghost also_owns = { λ c. count_owns c.name c.out };
}

/// One of the permits that were given out by the count with the same name. It can be neither
/// dropped nor copied. It may be sent to another thread, and shared.
pub struct Permit {
    marker: PhantomData<()>,
    /// The name of the count that gave the permit, if that has one.
    pub ghost name: { Option ℕ },
    ghost key: { ℕ },
}

impl Model for Permit {
    ghost also_owns = { λ s. permit_owns s.name s.key full_share };

    ghost also_shares = { λ s _. one (permit_owns s.name s.key) };
}

impl Count {
    /// Begins a count under a new name: no permit is given out yet.
    pub fn open() -> Count
        ensures named { IsSome result.name }
        ensures none { result.out ≡ 0 }
    {
        Count {
            marker: PhantomData,
        }
    }

    /// Makes a count that has no name. Its number of permits is `out`.
    pub fn blind(out: u32) -> Count
        ensures nameless { result.name ≡ None }
        ensures all { result.out ≡ out }
    {
        let _ = out;
        Count {
            marker: PhantomData,
        }
    }

    /// Gives a new permit.
    pub fn give(&mut self) -> Permit
        ensures of_this { self.new.name ≡ self.old.name }
        ensures permit { result.name ≡ self.old.name }
        ensures more { self.new.out ≡ self.old.out + 1 }
    {
        Permit {
            marker: PhantomData,
        }
    }

    /// Takes a permit back.
    pub fn take(&mut self, permit: Permit)
        requires of_this { permit.name ≡ self.old.name }
        ensures of_this { self.new.name ≡ self.old.name }
        ensures fewer { self.new.out ≡ self.old.out - 1 }
        ensures was_out { IsSome self.old.name → self.old.out ≡ (self.old.out - 1) + 1 }
    {
        let Permit { marker: _ } = permit;
    }

    /// Does nothing. Its contract states that at least one permit of the count's name is given out,
    /// since `permit` is such a permit.
    pub fn proves_counted(&mut self, permit: &Permit)
        requires of_this { permit.now.name ≡ self.old.name }
        ensures stays { self.new ≡ self.old }
        ensures out { IsSome self.old.name → 0 < self.old.out }
    {}
}

impl Permit {
    /// Loses the permit: it stays counted for ever.
    pub fn lose(self) {
        let Permit { marker: _ } = self;
    }

    /// Makes a permit without a name. Such a permit proves nothing about any count.
    pub fn blind() -> Permit
        ensures nameless { result.name ≡ None }
    {
        Permit {
            marker: PhantomData,
        }
    }
}

unsafe impl Send for Count {}

unsafe impl Send for Permit {}

unsafe impl Sync for Permit {}
