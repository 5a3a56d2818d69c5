// Signed numbers, exact: by document 01's limits none passes 2 to the 47th, so 64 bits hold every sum and difference.
#![tactic(auto)]

ghost use Rattle.std.specs.Prelude.{◌≡◌, ◌≤◌, ◌^◌, nat_abs, ◌+ℤ◌, ◌-ℤ◌};
ghost use Rattle.meaning.specs.Register.{negative};
ghost use Rattle.meaning.specs.Meaning.{compared};
ghost use Rattle.rows.specs.Rows.{signed};
ghost use Rattle.signed.specs.Comparing.{comparison_of};

// The value of a word, two's complement.
pub fn from_word(w: u32) -> i64
    ensures { result ≡ signed w }
{
    if w < 2147483648 {
        w as i64
    } else {
        (w as i64) - 4294967296
    }
}

// Whether the value of a word is below 0.
pub fn is_negative(w: u32) -> bool
    ensures { result ≡ negative (signed w) }
{
    2147483648 <= w
}

pub fn add(a: i64, b: i64) -> i64
    requires { (nat_abs a ≤ 2 ^ 61) × (nat_abs b ≤ 2 ^ 61) }
    ensures { result ≡ a +ℤ b }
{
    a + b
}

pub fn subtract(a: i64, b: i64) -> i64
    requires { (nat_abs a ≤ 2 ^ 61) × (nat_abs b ≤ 2 ^ 61) }
    ensures { result ≡ a -ℤ b }
{
    a - b
}

// A comparison, by its code.
pub fn compare(code: u32, a: i64, b: i64) -> bool
    ensures { result ≡ compared (comparison_of code) a b }
{
    match code {
        0 => a <= b,
        1 => a < b,
        2 => a == b,
        3 => a != b,
        4 => b <= a,
        _ => b < a,
    }
}
