//! The numbers of the slots at which changes wait.

ghost use Rattle.std.specs.Prelude.{◌≡◌, ◌<◌, ◌+◌, ℕ, length, slice_index_or};
ghost use Rattle.std.specs.List.{All, Contains};
ghost use Rattle.cs_apply.specs.Numbers.{changes_waiting, AreWaitingGroups};

use cs_order::Groups;
use cs_value::Memory;
use std::alloc::Global;
use std::marker::Model;

/// For each change the number of the slot at which it waits, if it does. As long as none waits they take no memory.
#[derive(Drop)]
pub(crate) struct Numbers {
    /// How many changes there are.
    count: usize,
    /// For each of them one more than the number, or 0 for none; nothing, as long as none waits.
    told: Vec<usize>,
}

impl Model for Numbers {
    ghost use Rattle.std.specs.Prelude.{List, Option, ℕ};
    ghost use Rattle.cs_apply.specs.Numbers.{numbers_told};

    ghost Value = { List (Option ℕ) };

    ghost view = { λ numbers. numbers_told numbers.count numbers.told.items };
}

/// Puts a number at each of these places.
fn put_at(told: &mut [usize], places: &[usize], number: usize)
    requires { All (λ place. place < length told.old) places.now }
    ensures length { length told.new ≡ length told.old }
    ensures put { (at : ℕ) → Contains places.now at → slice_index_or told.new at 0 ≡ number }
    ensures kept { (at : ℕ) → (Contains places.now at → ⊥) → slice_index_or told.new at 0 ≡ slice_index_or told.old at 0 }
{
    for place in places {
        told[*place] = number;
    }
}

/// Puts at each change of the groups that wait one more than the number of its group among these.
fn put_numbers(told: &mut [usize], groups: &Groups, waiting: &[usize])
    requires { AreWaitingGroups groups.now waiting.now (length told.old) }
    ensures length { length told.new ≡ length told.old }
    ensures put { (number at : ℕ) → number < length waiting.now → Contains (changes_waiting groups.now waiting.now number) at
        → slice_index_or told.new at 0 ≡ number + 1 }
    ensures kept { (at : ℕ) → ((number : ℕ) → number < length waiting.now → Contains (changes_waiting groups.now waiting.now number) at → ⊥)
        → slice_index_or told.new at 0 ≡ slice_index_or told.old at 0 }
{
    for (number, group) in waiting.iter().enumerate() {
        put_at(told, groups.group(*group), number + 1);
    }
}

impl Numbers {
    ghost use Rattle.std.specs.Prelude.{◌≡◌, IfOk};
    ghost use Rattle.cs_apply.specs.Numbers.{HaveNumbers, AreWaitingGroups};

    /// The numbers of so many changes, of which these groups wait, each as the slot of its number among these.
    pub(crate) fn of_waiting(
        alloc: Global,
        count: usize,
        groups: &Groups,
        waiting: &[usize],
    ) -> Result<Numbers, Memory>
        requires { AreWaitingGroups groups.now waiting.now count }
        ensures { IfOk result (HaveNumbers groups.now waiting.now count) }
    {
        if waiting.is_empty() {
            let told = Vec::new(alloc);
            return Ok(Numbers { count, told });
        }
        let mut told = vec![in alloc; 0; count]?;
        put_numbers(told.as_mut_slice(), groups, waiting);
        Ok(Numbers { count, told })
    }

    /// The numbers, lent.
    pub(crate) fn lend(&self) -> LentNumbers<'_>
        ensures { result ≡ self.now }
    {
        LentNumbers {
            count: self.count,
            told: self.told.as_slice(),
        }
    }
}

/// The numbers of changes that follow one another, lent.
#[derive(Drop)]
pub(crate) struct LentNumbers<'n> {
    /// How many changes there are.
    count: usize,
    /// What is told of them; nothing, as long as none waits.
    told: &'n [usize],
}

impl<'n> Model for LentNumbers<'n> {
    ghost use Rattle.std.specs.Prelude.{List, Option, ℕ};
    ghost use Rattle.cs_apply.specs.Numbers.{numbers_told};

    ghost Value = { List (Option ℕ) };

    ghost view = { λ lent. numbers_told lent.count lent.told.now };
}

impl<'n> LentNumbers<'n> {
    ghost use Rattle.std.specs.Prelude.{◌≡◌, ◌<◌, ◌≤◌, None, drop, length, slice_index_or};

    /// Those behind so many.
    pub(crate) fn behind(&self, count: usize) -> LentNumbers<'n>
        requires { count ≤ length self.now }
        ensures { result ≡ drop count self.now }
    {
        if self.told.is_empty() {
            return LentNumbers {
                count: self.count - count,
                told: self.told,
            };
        }
        let (_, told) = self.told.split_at(count);
        LentNumbers {
            count: told.len(),
            told,
        }
    }

    /// The number of the change there, if it waits.
    #[inline(always)]
    pub(crate) fn get(&self, at: usize) -> Option<usize>
        requires { at < length self.now }
        ensures { result ≡ slice_index_or self.now at None }
    {
        if self.told.is_empty() {
            return None;
        }
        match self.told[at] {
            0 => None,
            more => Some(more - 1),
        }
    }
}
