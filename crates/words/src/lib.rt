// Loops over words that every part of the pool needs: setting a run of them, and testing that a run is all zero.
#![tactic(auto)]

ghost use Rattle.std.specs.Prelude.{◌≡◌, ◌-◌, ◌≤◌, ℕ, Bool, true, ◌&&◌, length, get_or, replicate, pos};
ghost use Rattle.words.specs.Lists.{all, is_zero};
ghost use Rattle.words.specs.Signed.{is_zero_z};
ghost use Rattle.words.specs.Counted.{every};
ghost use Rattle.words.specs.Places.{wiped};

// x in the whole slice.
pub fn fill<T: Copy>(s: &mut [T], x: T)
    ensures { s.new ≡ replicate (length s.old) x }
{
    for y in s.iter_mut() {
        *y = x;
    }
}

// x from place lo up to place hi.
pub fn fill_part<T: Copy>(s: &mut [T], lo: usize, hi: usize, x: T)
    requires { (lo ≤ hi) × (hi ≤ length s.old) }
    ensures { s.new ≡ wiped x lo hi s.old }
{
    fill(&mut s[lo..hi], x);
}

// Numbers whose bits can be gathered: what two hold together is zero only where both are.
pub trait Bits: Copy {
    ghost zero: { Self };

    ghost is_zero: { Self → Bool };

    fn zero() -> Self
        ensures { (result ≡ zero) × (is_zero result ≡ true) };

    fn or(self, other: Self) -> Self
        ensures { is_zero result ≡ (is_zero self && is_zero other) };

    fn is_zero(self) -> bool
        ensures { result ≡ is_zero self };
}

impl Bits for u8 {
    ghost zero = { 0 };

    ghost is_zero = { is_zero };

    fn zero() -> u8 {
        0
    }

    fn or(self, other: u8) -> u8 {
        self | other
    }

    fn is_zero(self) -> bool {
        self == 0
    }
}

impl Bits for u32 {
    ghost zero = { 0 };

    ghost is_zero = { is_zero };

    fn zero() -> u32 {
        0
    }

    fn or(self, other: u32) -> u32 {
        self | other
    }

    fn is_zero(self) -> bool {
        self == 0
    }
}

impl Bits for i32 {
    ghost zero = { pos 0 };

    ghost is_zero = { is_zero_z };

    fn zero() -> i32 {
        0
    }

    fn or(self, other: i32) -> i32 {
        self | other
    }

    fn is_zero(self) -> bool {
        self == 0
    }
}

// Whether all are zero. The loop gathers all their bits and has no way out, so that the machine reads many at a time.
fn is_zero_block<T: Bits>(s: &[T]) -> bool
    ensures { result ≡ all T.is_zero s.now }
{
    let mut any = T::zero();
    for x in s {
        any = any.or(*x);
    }
    any.is_zero()
}

// Whether all are zero. After each block of 256 the answer may be known.
pub fn is_zero<T: Bits>(s: &[T]) -> bool
    ensures { result ≡ all T.is_zero s.now }
{
    let mut rest = s;
    while let Some((block, tail)) = rest.split_at_checked(256) {
        if !is_zero_block(block) {
            return false;
        }
        rest = tail;
    }
    is_zero_block(rest)
}

// Whether those from place lo up to place hi are zero.
pub fn is_zero_part<T: Bits>(s: &[T], lo: usize, hi: usize) -> bool
    requires { (lo ≤ hi) × (hi ≤ length s.now) }
    ensures { result ≡ every (λ (i : ℕ). T.is_zero (get_or s.now i T.zero)) lo (hi - lo) }
{
    is_zero(&s[lo..hi])
}
