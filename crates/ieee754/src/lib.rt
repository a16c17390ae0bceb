// The double nearest to an integer, and the one nearest to a double's square root, ties to even, worked out from bits.
#![tactic(auto)]

ghost use Rattle.std.specs.Prelude.{◌≡◌, ◌+◌, ◌*◌, ◌^◌, ◌<◌, nat_abs};
ghost use Rattle.ieee754.specs.Ieee754.{one, units, Nearest, nearest_root, square_root_bits, Is, of_integer};
ghost use Rattle.ieee754.specs.Converted.{Converted};
ghost use Rattle.ieee754.specs.Roots.{WholeRoot, Digits, Positive};

// The weight of the exponent's field in a pattern, 2^52, and of the sign's bit, 2^63.
const FIELD: u64 = 0x0010_0000_0000_0000;

const SIGN: u64 = 0x8000_0000_0000_0000;

// Infinity's pattern, and that of the one NaN that is written.
const INFINITY: u64 = 0x7FF0_0000_0000_0000;

const NAN: u64 = 0x7FF8_0000_0000_0000;

// |i|, also of the smallest integer, which has no opposite.
pub fn magnitude(i: i64) -> u64
    ensures { result ≡ nat_abs i }
{
    i.unsigned_abs()
}

// The pattern of the double nearest to n. A number whose leading one is bit j has j + 1023 in the
// exponent's field. The field is made with one less, since the leading one of the 53 digits that are
// added to it adds one, as a carry out of them does.
pub fn nearest_pattern(n: u64) -> u64
    ensures { Nearest (n * one) 1 result }
{
    if n == 0 {
        return 0;
    }
    let zeros = u64::leading_zeros(n);
    let field = (1085 - zeros) as u64 * FIELD;
    if zeros >= 11 {
        return field + (n << (zeros - 11));
    }
    let dropped = 11 - zeros;
    let step = 1u64 << dropped;
    let whole = n >> dropped;
    let rest = n % step;
    if rest + rest < step {
        return field + whole;
    }
    if rest + rest > step {
        return field + whole + 1;
    }
    field + whole + whole % 2
}

// The pattern of the double nearest to i, with its sign. 0 gives +0.
pub fn nearest_bits(i: i64) -> u64
    ensures { Is (of_integer i) result }
{
    let p = nearest_pattern(magnitude(i));
    if i < 0 {
        return SIGN + p;
    }
    p
}

// The double nearest to i.
pub fn nearest_f64(i: i64) -> f64
    ensures { Converted i result }
{
    f64::from_bits(nearest_bits(i))
}

// The whole root of m * 2^54, digit by digit: each turn takes two more of its binary digits, of which
// the first 27 pairs are m's and the others 0, and gives one digit of the root. What the root's square
// leaves is at most twice the root, so that 64 bits hold it.
#[tactic(auto, using(crate::proofs::WholeRoot::root_small))]
fn whole_root(m: u64) -> u64
    requires { m < 2 ^ 54 }
    ensures { WholeRoot (m * 2 ^ 54) result }
{
    let mut root: u64 = 0;
    let mut rest: u64 = 0;
    let mut digits = m;
    for _ in 0..54u64 {
        rest = rest * 4 + digits / FIELD;
        digits = digits % FIELD * 4;
        root = root * 2;
        if root * 2 < rest {
            rest = rest - (root * 2 + 1);
            root = root + 1;
        }
    }
    root
}

// The pattern of the double nearest to the root of m * 2^e. The whole root has one digit more than a
// double, and says whether the number that is left without it moves up by one. The root is never in
// the middle of two doubles, so what is behind this digit is no matter.
fn root_of_digits(m: u64, e: u64) -> u64
    requires { Digits m e }
    ensures { result ≡ nearest_root (m * 2 ^ e) }
{
    let root = whole_root(m * (1 + e % 2));
    (e / 2 - 26) * FIELD + root / 2 + root % 2
}

// The pattern of the double nearest to the root of the one with the pattern p. Where p has no leading
// digit, its digits are moved up until there are 53.
fn positive_root(p: u64) -> u64
    requires { Positive p }
    ensures { result ≡ nearest_root (units p * one) }
{
    let field = p / FIELD;
    if field == 0 {
        let zeros = u64::leading_zeros(p);
        return root_of_digits(p << (zeros - 11), (1085 - zeros) as u64);
    }
    root_of_digits(FIELD + p % FIELD, 1073 + field)
}

// The pattern of the square root. A zero keeps its sign, and any other number below zero has no root.
pub fn square_root_bits(b: u64) -> u64
    ensures { result ≡ square_root_bits b }
{
    let p = b % SIGN;
    if INFINITY < p {
        return NAN;
    }
    if p == 0 {
        return b;
    }
    if SIGN <= b {
        return NAN;
    }
    if p == INFINITY {
        return INFINITY;
    }
    positive_root(p)
}
