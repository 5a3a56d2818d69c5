// The pieces of a printed line, each put at a place.
ghost use Rattle.std.specs.Prelude.{[], ◌∷◌};
ghost use Rattle.lexical.specs.Decimals.{digits_of};
ghost use Rattle.line_writer.specs.Put.{Put};
ghost use Rattle.printing.specs.Lines.{line_of};

// A space and a number. A word above 2^31 - 1 is a negative number to `write_number`: its last digit is put by itself.
pub fn number(out: &mut [u8], at: usize, n: u32) -> usize
    ensures { Put out.old at (32 ∷ digits_of n) out.new result }
{
    let a = lexical::write_bytes(&mut *out, at, b" ");
    if n < 2147483648 {
        return lexical::write_number(out, a, n);
    }
    let b = lexical::write_number(&mut *out, a, n / 10);
    lexical::write_number(out, b, n % 10)
}

// A line of a name and two numbers.
pub fn line(out: &mut [u8], at: usize, name: &[u8], x: u32, y: u32) -> usize
    ensures { Put out.old at (line_of name.now (x ∷ y ∷ [])) out.new result }
{
    let a = lexical::write_bytes(&mut *out, at, name);
    let b = number(&mut *out, a, x);
    let c = number(&mut *out, b, y);
    lexical::write_bytes(out, c, b"\n")
}
