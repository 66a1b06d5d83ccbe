//! One field after another.

ghost use Rattle.sms_field.specs.Field.{IsLawful, ◌>>=◌ as ◌followed_by◌};

/// A field, and one that follows it and may depend on its value.
pub trait Chain<A, B, W> {
    ghost use Rattle.std.specs.Prelude.{List, ℕ};
    ghost use Rattle.sms_field.specs.Field.{Field, IsLawful, IsSelfContained};

    ghost short: { W };

    ghost first: { Field A W };

    ghost second: { A → Field B W };

    /// The first does not look at what follows it.
    ghost self_contained: { IsSelfContained first };

    /// Both are lawful, the second for each value that the first can read.
    ghost first_lawful: { IsLawful short first };

    ghost second_lawful: { (a : A) (octets rest : List ℕ)
        → first.reads a octets rest → IsLawful short (second a) };
}

/// Does nothing: its contract is the law of chains.
pub fn law_of_chains<A, B, W, J: Chain<A, B, W>>()
    ensures { IsLawful J.short (J.first followed_by J.second) }
{}
