//! True, false and unknown.

ghost use Rattle.std.specs.Prelude.{◌≡◌};
ghost use Rattle.scalar.specs.Eval.{truth_of, negation, conjunction, disjunction, if_negated};

/// A truth value of SQL.
#[derive(Clone, Copy, PartialEq, Eq, Debug)]
pub enum Truth {
    True,
    False,
    Unknown,
}

impl Truth {
    /// The truth of something known.
    pub fn known(holds: bool) -> Truth
        ensures { result ≡ truth_of holds }
    {
        if holds { Truth::True } else { Truth::False }
    }

    /// The truth of NOT.
    pub(crate) fn negation(self) -> Truth
        ensures { result ≡ negation self }
    {
        match self {
            Truth::True => Truth::False,
            Truth::False => Truth::True,
            Truth::Unknown => Truth::Unknown,
        }
    }

    /// The truth of AND.
    pub fn and(self, other: Truth) -> Truth
        ensures { result ≡ conjunction self other }
    {
        match (self, other) {
            (Truth::False, _) | (_, Truth::False) => Truth::False,
            (Truth::True, Truth::True) => Truth::True,
            _ => Truth::Unknown,
        }
    }

    /// The truth of OR.
    pub fn or(self, other: Truth) -> Truth
        ensures { result ≡ disjunction self other }
    {
        match (self, other) {
            (Truth::True, _) | (_, Truth::True) => Truth::True,
            (Truth::False, Truth::False) => Truth::False,
            _ => Truth::Unknown,
        }
    }

    /// The truth as it is, or its NOT.
    pub(crate) fn negated_if(self, negated: bool) -> Truth
        ensures { result ≡ if_negated negated self }
    {
        if negated { self.negation() } else { self }
    }
}
