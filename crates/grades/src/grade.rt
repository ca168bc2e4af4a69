//! The interface of a kind of grade.
ghost use Rattle.std.specs.Prelude.{◌≡◌, ℕ};
ghost use Rattle.grades.specs.Kind.{Kind, Laws, Says};

/// A kind of grade: a bounded lattice with a turn.
///
/// `kind` is what the kind means, and `laws` what every kind keeps.
/// Every function answers for every grade.
pub trait Grade: Copy {
    /// The greatest rank of a grade of this kind, at most 64.
    const HEIGHT: u32;

    // `HEIGHT`, as clauses name it.
    ghost HEIGHT: { ℕ };

    ghost kind: { Kind Self };

    /// `HEIGHT`, as a call.
    fn greatest_rank() -> u32
        ensures { result ≡ kind.height }
    {
        Self::HEIGHT
    }

    /// The least grade above both.
    fn join(self, other: Self) -> Self
        ensures { result ≡ kind.joined self other };

    /// The greatest grade below both.
    fn meet(self, other: Self) -> Self
        ensures { result ≡ kind.met self other };

    /// The grade on the other side.
    fn turn(self) -> Self
        ensures { result ≡ kind.turned self };

    /// The grade below all.
    fn lowest() -> Self
        ensures { result ≡ kind.lowest };

    /// The grade above all.
    fn highest() -> Self
        ensures { result ≡ kind.highest };

    /// Whether the two are equal.
    // Not `==` of a bound: a `PartialEq` bound would ask more of each kind, and promises what its `eq` answers, not that the two are one grade.
    fn same(self, other: Self) -> bool
        ensures { Says result (self ≡ other) };

    ghost laws: { Laws kind };

    // The constant is the height of the meaning.
    ghost height_of_kind: { HEIGHT ≡ kind.height };
}
