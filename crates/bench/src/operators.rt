// The operators and the comparisons on words.
ghost use Rattle.std.specs.Prelude.{◌≡◌};
ghost use Rattle.bench.specs.Words.{operate, compare, raised};

// Operator o on two words; shifts go by b modulo 32. By its number, as a table holds it and the checks bound it: an enum would be made of it
// anew in each step.
#[tactic(auto, unfolding(crate::specs::Words::operate))]
pub fn operate(o: u32, a: u32, b: u32) -> u32
    ensures { result ≡ operate o a b }
{
    match o {
        0 => a.wrapping_add(b),
        1 => a.wrapping_sub(b),
        2 => a & b,
        3 => a | b,
        4 => a ^ b,
        5 => a << (b % 32),
        6 => a >> (b % 32),
        7.. => 0,
    }
}

// A word moved by half the range, so that two's complement order becomes the order of numbers: `compare`'s definition says it so.
fn raised(a: u32) -> u32
    ensures { result ≡ raised a }
{
    a.wrapping_add(0x8000_0000)
}

// Comparison c of two words.
#[tactic(auto, unfolding(crate::specs::Words::compare))]
pub fn compare(c: u32, a: u32, b: u32) -> bool
    ensures { result ≡ compare c a b }
{
    match c {
        0 => a == b,
        1 => a != b,
        2 => a < b,
        3 => b <= a,
        4 => raised(a) < raised(b),
        5 => raised(b) <= raised(a),
        6.. => false,
    }
}
