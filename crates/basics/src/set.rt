// Sets of small numbers. A set is kept as a mask: number n is a member where bit n is 1.
ghost use Rattle.std.specs.Prelude.{◌≡◌, ℕ, ◌<◌, ◌≤◌, ◌%◌, ◌^◌, true, false, not, ◌&&◌, ◌||◌, ◌↔◌, ◌==◌, bit_and, bit_or, nat_lt, IfSome, MatchOption};
ghost use Rattle.basics.specs.Sets.{has, with_member, without_member, within, counted};

use crate::number::Numbered;

pub trait NumberSet: Copy + Eq {
    // What the members are.
    type Number: Numbered;

    // Members are below the width.
    ghost WIDTH: { ℕ };

    ghost mask: { Self → ℕ };

    const WIDTH: u8;

    // The mask; its bits past the width are 0.
    fn bits(self) -> u64
        ensures mask { result ≡ mask self }
        ensures fits { result < 2 ^ WIDTH };

    // The set whose mask has the low bits of `bits`.
    fn of_bits(bits: u64) -> Self
        ensures { mask result ≡ bits % 2 ^ WIDTH };

    // What each kind of set proves: a mask fits 64 bits, and sets are equal where their masks are, which is where they have
    // the same members.
    ghost narrow: { WIDTH ≤ 64 };

    ghost equal: { (a b : Self) → Self.eq a b ≡ (mask a == mask b) };

    ghost alike: { (a b : Self) → (Self.eq a b ≡ true) ↔ ((k : ℕ) → has (mask a) k ≡ has (mask b) k) };

    final fn empty() -> Self
        ensures mask { mask result ≡ 0 }
        ensures members { (k : ℕ) → has (mask result) k ≡ false }
    {
        Self::of_bits(0)
    }

    final fn contains(self, n: Self::Number) -> bool
        ensures { result ≡ has (mask self) (Self.Number.number n) }
    {
        let (bits, n) = (self.bits(), n.number());
        n < Self::WIDTH && (bits >> n) & 1 == 1
    }

    // The set with n added; a number past the width adds nothing.
    final fn with(self, n: Self::Number) -> Self
        ensures mask { mask result ≡ with_member WIDTH (mask self) (Self.Number.number n) }
        ensures members { (k : ℕ) → has (mask result) k ≡ (has (mask self) k || (k == Self.Number.number n && nat_lt k WIDTH)) }
    {
        let (bits, n) = (self.bits(), n.number());
        if n < Self::WIDTH {
            Self::of_bits(bits | (1 << n))
        } else {
            self
        }
    }

    // The set with n removed.
    final fn without(self, n: Self::Number) -> Self
        ensures mask { mask result ≡ without_member WIDTH (mask self) (Self.Number.number n) }
        ensures members { (k : ℕ) → has (mask result) k ≡ (has (mask self) k && not (k == Self.Number.number n)) }
    {
        let (bits, n) = (self.bits(), n.number());
        if n < Self::WIDTH {
            Self::of_bits(bits & !(1 << n))
        } else {
            self
        }
    }

    final fn union(self, other: Self) -> Self
        ensures mask { mask result ≡ bit_or (mask self) (mask other) }
        ensures members { (k : ℕ) → has (mask result) k ≡ (has (mask self) k || has (mask other) k) }
    {
        Self::of_bits(self.bits() | other.bits())
    }

    final fn intersection(self, other: Self) -> Self
        ensures mask { mask result ≡ bit_and (mask self) (mask other) }
        ensures members { (k : ℕ) → has (mask result) k ≡ (has (mask self) k && has (mask other) k) }
    {
        Self::of_bits(self.bits() & other.bits())
    }

    final fn is_subset(self, other: Self) -> bool
        ensures mask { result ≡ within (mask self) (mask other) }
        ensures members { (result ≡ true) ↔ ((k : ℕ) → has (mask self) k ≡ true → has (mask other) k ≡ true) }
    {
        self.bits() & other.bits() == self.bits()
    }

    final fn is_empty(self) -> bool
        ensures mask { result ≡ (mask self == 0) }
        ensures members { (result ≡ true) ↔ ((k : ℕ) → has (mask self) k ≡ false) }
    {
        self.bits() == 0
    }

    // Whether both have the same members, which is what `==` says.
    final fn same_members(self, other: Self) -> bool
        ensures equal { result ≡ Self.eq self other }
        ensures members { (result ≡ true) ↔ ((k : ℕ) → has (mask self) k ≡ has (mask other) k) }
    {
        self == other
    }

    // The members of self that are not members of other.
    final fn difference(self, other: Self) -> Self
        ensures { (k : ℕ) → has (mask result) k ≡ (has (mask self) k && not (has (mask other) k)) }
    {
        Self::of_bits(self.bits() & !other.bits())
    }

    // The least member.
    final fn first(self) -> Option<Self::Number>
        ensures member { MatchOption result ((k : ℕ) → has (mask self) k ≡ false) (λ n. has (mask self) (Self.Number.number n) ≡ true) }
        ensures least { IfSome result (λ n. (k : ℕ) → k < Self.Number.number n → has (mask self) k ≡ false) }
        ensures below { IfSome result (λ n. Self.Number.number n < WIDTH) }
    {
        let bits = self.bits();
        if bits == 0 {
            return None;
        }
        Some(Self::Number::of_number(bits.trailing_zeros() as u8))
    }

    // The number of members.
    final fn size(self) -> u8
        ensures { result ≡ counted (has (mask self)) WIDTH }
    {
        self.bits().count_ones() as u8
    }
}
