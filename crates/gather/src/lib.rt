// The different strings that references refer to, each once, in order of first reference. Strings are compared by their first eight bytes as one number, then
// by their length, by their last eight bytes, and then eight bytes at a time: a sheet can have 4,366 references.
#![tactic(auto)]

ghost use Rattle.std.specs.Prelude.{◌≡◌, Bool, true, false, ℕ, ◌+◌, ◌-◌, ◌*◌, ◌≤◌, ◌<◌, map, length, take};
ghost use Rattle.value.specs.Meaning.{bytes_at};
ghost use Rattle.sheet.specs.Bytes.{byte};
ghost use Rattle.sheet_laws.specs.Fits.{All};
ghost use Rattle.compact.specs.Strings as Strings;
ghost use Rattle.compact.specs.Strings.{joined};
ghost use Rattle.gather.specs.Gather.{stretch, eight, mark_of, Begins, Inside, held, Holds, Finds, Places, Gathered};

// Byte i of the n from `at` on, and 0 behind them.
fn nth(s: &[u8], at: usize, n: usize, i: usize) -> u8
    requires { at + n ≤ length s.now }
    ensures { result ≡ byte (stretch s.now at n) i }
{
    if n <= i {
        return 0;
    }
    s[at + i]
}

// The first eight bytes of the n from `at` on as one number. One by one: a copy of so few bytes is a call of C's memcpy, which the archive wants of no one.
fn mark(s: &[u8], at: usize, n: usize) -> usize
    requires { at + n ≤ length s.now }
    ensures { result ≡ mark_of (stretch s.now at n) }
{
    usize::from_le_bytes([
        nth(s, at, n, 0),
        nth(s, at, n, 1),
        nth(s, at, n, 2),
        nth(s, at, n, 3),
        nth(s, at, n, 4),
        nth(s, at, n, 5),
        nth(s, at, n, 6),
        nth(s, at, n, 7),
    ])
}

// ---- comparing

// The eight bytes from i on as one number.
fn eight_at(s: &[u8], i: usize) -> usize
    requires { i + 8 ≤ length s.now }
    ensures { result ≡ eight s.now i }
{
    let low = layout::word_at(s, i);
    let high = layout::word_at(s, i + 4);
    low + 4294967296 * high
}

// The last eight of the n bytes from a on are those of the n from b on, if there are eight. Where they aren't, the rest needn't be looked at.
fn ends_alike(s: &[u8], a: usize, b: usize, n: usize) -> bool
    requires { (a + n ≤ length s.now) × (b + n ≤ length s.now) }
    ensures { result ≡ false → false ≡ Strings.same (stretch s.now a n) (stretch s.now b n) }
{
    n < 8 || eight_at(s, a + (n - 8)) == eight_at(s, b + (n - 8))
}

// How many bytes the n from a on and the n from b on begin alike with, found eight at a time. The next eight, if there are as many, differ.
fn alike(s: &[u8], a: usize, b: usize, n: usize) -> usize
    requires { (a + n ≤ length s.now) × (b + n ≤ length s.now) }
    ensures { Begins s.now a b n result }
{
    for i in 0..n / 8 {
        let x = eight_at(s, a + i * 8);
        let y = eight_at(s, b + i * 8);
        if x != y {
            return i * 8;
        }
    }
    n / 8 * 8
}

// The n bytes from a on are those from b on.
fn same(s: &[u8], a: usize, b: usize, n: usize) -> bool
    requires { (a + n ≤ length s.now) × (b + n ≤ length s.now) }
    ensures { result ≡ Strings.same (stretch s.now a n) (stretch s.now b n) }
{
    if !ends_alike(s, a, b, n) {
        return false;
    }
    let i = alike(s, a, b, n);
    n < i + 8 && s[a + i..a + n] == s[b + i..b + n]
}

// ---- what is kept

// A string that is kept: its first eight bytes, a reference to it, and where it starts in the new text. `find` walks over many of them, so they are short.
#[derive(Clone, Copy)]
pub struct Kept {
    pub mark: usize,
    pub reference: u32,
    pub place: u32,
}

// How many strings are kept, and how many bytes they have together.
#[derive(Clone, Copy)]
pub struct Total {
    pub count: usize,
    pub bytes: usize,
}

// The strings have over 8,192 bytes together.
#[derive(Clone, Copy)]
pub struct TooLong;

// The string that is kept is the n bytes from `at` on, whose mark is `mark`.
fn is_it(s: &[u8], k: Kept, at: usize, n: usize, mark: usize) -> bool
    requires inside { Inside s.now k.reference × (at + n ≤ length s.now) }
    requires its_value { (k.mark ≡ mark_of (bytes_at s.now k.reference)) × (mark ≡ mark_of (stretch s.now at n)) }
    ensures { result ≡ Strings.same (bytes_at s.now k.reference) (stretch s.now at n) }
{
    let r = k.reference as usize;
    k.mark == mark && r / 65536 == n && same(s, r % 65536, at, n)
}

// Which of the strings kept is the n bytes from `at` on.
fn find(s: &[u8], kept: &[Kept], at: usize, n: usize, mark: usize) -> Option<usize>
    requires holds { Holds s.now kept.now }
    requires n_in_bounds { (at + n ≤ length s.now) × (mark ≡ mark_of (stretch s.now at n)) }
    ensures { Finds (held s.now kept.now) (stretch s.now at n) result }
{
    for j in 0..kept.len() {
        if is_it(s, kept[j], at, n, mark) {
            return Some(j);
        }
    }
    None
}

// One reference more: what is kept then, and the new reference. Over 8,192 bytes it writes nothing.
fn place(s: &[u8], r: usize, kept: &mut [Kept], total: Total) -> Result<(Total, usize), TooLong>
    requires holds { Holds s.now (take total.count kept.old) }
    requires room { (total.count < length kept.old) × Inside s.now r }
    requires bytes_value { (total.bytes ≡ length (joined (held s.now (take total.count kept.old)))) × (total.bytes ≤ 8192) }
    ensures { Places s.now (take total.count kept.old) r kept.new result }
{
    let at = r % 65536;
    let n = r / 65536;
    if n == 0 {
        return Ok((total, 0));
    }
    let m = mark(s, at, n);
    if let Some(j) = find(s, &kept[..total.count], at, n, m) {
        return Ok((total, kept[j].place as usize + 65536 * n));
    }
    let bytes = total.bytes + n;
    if 8192 < bytes {
        return Err(TooLong);
    }
    kept[total.count] = Kept {
        mark: m,
        reference: r as u32,
        place: total.bytes as u32,
    };
    let count = total.count + 1;
    Ok((Total { count, bytes }, total.bytes + 65536 * n))
}

// The strings that references refer to: those that are kept, and the new reference of each. Where the kept ones have over 8,192 bytes it stops.
pub fn gather(
    s: &[u8],
    refs: &[usize],
    kept: &mut [Kept],
    fresh: &mut [usize],
) -> Result<Total, TooLong>
    requires all { All (Inside s.now) refs.now }
    requires room { (length refs.now ≤ length kept.old) × (length refs.now ≤ length fresh.old) }
    ensures { Gathered s.now refs.now kept.new fresh.new result }
{
    let mut total = Total { count: 0, bytes: 0 };
    for i in 0..refs.len() {
        let (next, reference) = place(s, refs[i], kept, total)?;
        total = next;
        fresh[i] = reference;
    }
    Ok(total)
}
