// Rules as "one bit each of a 32-bit word, taken lowest first". "Trailing zeros give the next touched rule; count of ones says how
// many rules remain."
#![tactic(auto)]

ghost use Rattle.std.specs.Prelude.{◌≡◌, ◌||◌, ℕ, ◌<◌, eqb, length, drop};
ghost use Rattle.bits.specs.Bits.{bit_at, bits_in, lowest_in};

// The word with a bit set.
pub fn with(word: u32, i: u32) -> u32
    requires { i < 32 }
    ensures { (j : ℕ) → bit_at result j ≡ (bit_at word j || eqb i j) }
{
    word | 1 << i
}

// The number of the lowest bit that is set; 32 where none is.
pub fn lowest(word: u32) -> u32
    ensures { result ≡ lowest_in word }
{
    u32::trailing_zeros(word)
}

// The word without the lowest bit that is set.
pub fn rest(word: u32) -> u32
    ensures { bits_in result ≡ drop 1 (bits_in word) }
{
    if word == 0 {
        return 0;
    }
    word & word - 1
}

// How many bits are set.
pub fn count(word: u32) -> u32
    ensures { result ≡ length (bits_in word) }
{
    u32::count_ones(word)
}
