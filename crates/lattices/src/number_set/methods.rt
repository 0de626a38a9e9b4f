// Operations on sets of numbers.
ghost use Rattle.std.specs.Prelude.{◌≡◌, ◌^◌, false, cond, not, ◌&&◌, ◌||◌, ◌==◌, nat_lt};
ghost use Rattle.lattices.specs.Sets.{Has, Members, LeastFrom, set_size};

use crate::number_set::NumberSet;

// The bit at the place of the number. A number past 63 has no bit.
fn bit(number: usize) -> u64
    ensures { result ≡ cond (nat_lt number 64) (2 ^ number) 0 }
{
    if number < 64 { 1 << number } else { 0 }
}

impl NumberSet {
    // The set with no members.
    pub fn empty() -> NumberSet
        ensures { Members result (λ _. false) }
    {
        NumberSet { bits: 0 }
    }

    pub fn contains(self, number: usize) -> bool
        ensures { result ≡ Has self number }
    {
        self.bits & bit(number) != 0
    }

    // The set with the number added. A number past 63 changes nothing.
    pub fn insert(self, number: usize) -> NumberSet
        ensures { Members result (λ n. Has self n || (n == number && nat_lt n 64)) }
    {
        NumberSet {
            bits: self.bits | bit(number),
        }
    }

    // The set without the number.
    pub fn remove(self, number: usize) -> NumberSet
        ensures { Members result (λ n. Has self n && not (n == number)) }
    {
        NumberSet {
            bits: self.bits & !bit(number),
        }
    }

    // The set of the members of either.
    pub fn union(self, other: NumberSet) -> NumberSet
        ensures { Members result (λ n. Has self n || Has other n) }
    {
        NumberSet {
            bits: self.bits | other.bits,
        }
    }

    // How many members there are.
    pub fn len(self) -> u32
        ensures { result ≡ set_size self }
    {
        self.bits.count_ones()
    }

    // The least member at or past `from`.
    pub fn next_from(self, from: usize) -> Option<usize>
        ensures { LeastFrom self from result }
    {
        if from >= 64 {
            return None;
        }
        let later = self.bits >> from;
        (later != 0).then_some(from + later.trailing_zeros() as usize)
    }
}
