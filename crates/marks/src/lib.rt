// Sets of small numbers, held as the bits of one number: bit i stands for the number i. A number at or past the width
// has no bit: it is in no set, and putting it in or taking it out changes nothing.
#![tactic(auto)]

ghost use Rattle.std.specs.Prelude.{◌≡◌, ◌<◌, ◌≤◌, ◌%◌, ◌^◌, ℕ, cond, ltb};
ghost use Rattle.std.proofs.Common.{rules};
ghost use Rattle.marks.specs.Sets.{has, add, remove, lowest};

// A number whose bits hold a set, of at most 64 bits.
pub trait Word: Copy {
    // How many bits there are, and the number that they make.
    ghost WIDTH: { ℕ };

    ghost number: { Self → ℕ };

    const WIDTH: u8;

    // The number itself, and its bound: a clause and no law, since in a law a byte is any number.
    fn wide(self) -> u64
        ensures number { result ≡ number self }
        ensures bound { result < 2 ^ WIDTH };

    // The word of a number's lowest bits: `% 256` for a byte, as the contract has it, since `as` may lose nothing.
    fn narrow(wide: u64) -> Self
        ensures { number result ≡ wide % 2 ^ WIDTH };

    // A word is known by its number.
    ghost one_to_one: { (a b : Self) → number a ≡ number b → a ≡ b };

    // A bit below the width can be shifted to within 64 bits.
    ghost within: { WIDTH ≤ 64 };
}

impl Word for u8 {
    ghost WIDTH = { 8 };

    ghost number = { λ n. n };

    const WIDTH: u8 = 8;

    fn wide(self) -> u64 {
        u64::from(self)
    }

    fn narrow(wide: u64) -> u8 {
        (wide % 256) as u8
    }

    ghost one_to_one = { λ a b same. same };

    ghost within = { Prim.search rules };
}

impl Word for u64 {
    ghost WIDTH = { 64 };

    ghost number = { λ n. n };

    const WIDTH: u8 = 64;

    fn wide(self) -> u64 {
        self
    }

    fn narrow(wide: u64) -> u64 {
        wide
    }

    ghost one_to_one = { λ a b same. same };

    ghost within = { Prim.search rules };
}

// The bit that stands for i, and no bit where there is none.
fn bit_of<W: Word>(i: u8) -> u64
    ensures { result ≡ cond (ltb i W.WIDTH) (2 ^ i) 0 }
{
    if i < W::WIDTH { 1u64 << i } else { 0 }
}

// Whether i is in a set.
pub fn has<W: Word>(set: W, i: u8) -> bool
    ensures { result ≡ has (W.number set) i }
{
    let wide = set.wide();
    i < W::WIDTH && (wide >> i) % 2 == 1
}

// A set with i put in.
pub fn add<W: Word>(set: W, i: u8) -> W
    ensures { W.number result ≡ add W.WIDTH (W.number set) i }
{
    W::narrow(set.wide() | bit_of::<W>(i))
}

// A set with i taken out.
pub fn remove<W: Word>(set: W, i: u8) -> W
    ensures { W.number result ≡ remove W.WIDTH (W.number set) i }
{
    let bit = bit_of::<W>(i);
    W::narrow((set.wide() | bit) ^ bit)
}

// The smallest number in a set, and the width where there is none, as `lowest` of specs/Sets.antt has it; with an Option the walk
// would have a case that never happens. `as` is proved to lose nothing; `try_from` would have an arm that is never taken.
pub fn lowest<W: Word>(set: W) -> u8
    ensures { result ≡ lowest W.WIDTH (W.number set) }
{
    W::WIDTH.min(u64::trailing_zeros(set.wide()) as u8)
}
