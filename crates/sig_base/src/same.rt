// Whether bytes are the same; those of short texts are told four at a time.
ghost use Rattle.std.specs.Prelude.{◌≡◌, ◌+◌, ◌≤◌, ◌<◌, true, false, length, take, drop};
ghost use Rattle.std.specs.Int.{from_le_bytes, to_le_bytes, w32};
ghost use Rattle.std.specs.Str.{bytes_eq};

// Four bytes from a place on, as a number.
#[inline(always)]
fn word(bytes: &[u8], at: usize) -> u32
    requires { at + 4 ≤ length bytes.now }
    ensures is { result ≡ from_le_bytes w32 (take 4 (drop at bytes.now)) }
    ensures tells { to_le_bytes w32 result ≡ take 4 (drop at bytes.now) }
{
    let second = at + 1;
    let third = at + 2;
    let fourth = at + 3;
    u32::from_le_bytes([bytes[at], bytes[second], bytes[third], bytes[fourth]])
}

// Whether four bytes from a place on are the same.
#[inline(always)]
fn same_word(one: &[u8], other: &[u8], at: usize) -> bool
    requires one { at + 4 ≤ length one.now }
    requires other { at + 4 ≤ length other.now }
    ensures same { result ≡ true → take 4 (drop at one.now) ≡ take 4 (drop at other.now) }
    ensures differ { result ≡ false → one.now ≡ other.now → ⊥ }
{
    word(one, at) == word(other, at)
}

// Whether four to eight bytes are the same: the first four and the last four, which may overlap, are all.
#[inline(always)]
fn same_words(one: &[u8], other: &[u8]) -> bool
    requires count { length one.now ≡ length other.now }
    requires least { 4 ≤ length one.now }
    requires most { length one.now ≤ 8 }
    ensures { result ≡ bytes_eq one.now other.now }
{
    if !same_word(one, other, 0) {
        return false;
    }
    same_word(one, other, one.len() - 4)
}

// Whether at most three bytes are the same: the first, the last and one between are all.
#[inline(always)]
fn same_few(one: &[u8], other: &[u8]) -> bool
    requires count { length one.now ≡ length other.now }
    requires most { length one.now < 4 }
    ensures { result ≡ bytes_eq one.now other.now }
{
    if one.is_empty() {
        return true;
    }
    let between = one.len() / 2;
    let last = one.len() - 1;
    one[0] == other[0] && one[between] == other[between] && one[last] == other[last]
}

/// Whether bytes are the same. Short ones, as the names that a search meets, are compared without a call.
#[inline(always)]
pub fn same_bytes(one: &[u8], other: &[u8]) -> bool
    ensures { result ≡ bytes_eq one.now other.now }
{
    if one.len() != other.len() {
        return false;
    }
    if one.len() < 4 {
        return same_few(one, other);
    }
    if one.len() <= 8 {
        return same_words(one, other);
    }
    one == other
}
