// Connectives and quantifiers by the codes of their rows (docs/TABLES.md).
ghost use Rattle.std.specs.Prelude.{◌≡◌, Bool, true, not, eqb};
ghost use Rattle.meaning.specs.Meaning.{connected};
ghost use Rattle.operators.specs.Operators.{connective_of, quantifier_of, stopping};

// Whether a connective is decided by its left part alone; what it then is, is whether it is not `and`.
pub fn decided(code: u32, left: bool) -> bool
    ensures { result ≡ true → (b : Bool) → connected (connective_of code) left b ≡ not (eqb code 7) }
{
    match code {
        7 => !left,
        8 => left,
        9 => false,
        _ => !left,
    }
}

// A connective of two truths.
pub fn joined(code: u32, left: bool, right: bool) -> bool
    ensures { result ≡ connected (connective_of code) left right }
{
    if code == 7 {
        return if left { right } else { false };
    }
    if code == 8 {
        return if left { true } else { right };
    }
    if code == 9 {
        return if left { !right } else { right };
    }
    if left { right } else { true }
}

// Whether a quantifier is decided at a member.
pub fn stops(code: u32, holds: bool) -> bool
    ensures { result ≡ stopping (quantifier_of code) holds }
{
    if code == 11 { !holds } else { holds }
}
