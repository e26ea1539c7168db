//! Pieces of text, put where they stand: each after the bytes before `at`, which stay as they are; those after it are free. A function that puts a
//! piece answers where it ends.
ghost use Rattle.std.specs.Prelude.{◌≡◌, ◌+◌, ◌/◌, ◌%◌, ◌<◌, ◌≤◌, [], ◌∷◌, ◌++◌, length, take, drop, decimal};
ghost use Rattle.text.specs.Hex.{digit_in_hex, hex_word};
ghost use Rattle.text.specs.Lines.{bit};
ghost use Rattle.reports.specs.Pages.{two_digits};

// The two hexadecimal digits of each byte, one after the other.
static HEX_PAIRS: [u8; 512] =
    *b"000102030405060708090a0b0c0d0e0f101112131415161718191a1b1c1d1e1f202122232425262728292a2b2c2d2e2f303132333435363738393a3b3c3d3e3f404142434445464748494a4b4c4d4e4f505152535455565758595a5b5c5d5e5f606162636465666768696a6b6c6d6e6f707172737475767778797a7b7c7d7e7f808182838485868788898a8b8c8d8e8f909192939495969798999a9b9c9d9e9fa0a1a2a3a4a5a6a7a8a9aaabacadaeafb0b1b2b3b4b5b6b7b8b9babbbcbdbebfc0c1c2c3c4c5c6c7c8c9cacbcccdcecfd0d1d2d3d4d5d6d7d8d9dadbdcdddedfe0e1e2e3e4e5e6e7e8e9eaebecedeeeff0f1f2f3f4f5f6f7f8f9fafbfcfdfeff";

// The two decimal digits of each number below 100, one after the other.
static DECIMAL_PAIRS: [u8; 200] =
    *b"00010203040506070809101112131415161718192021222324252627282930313233343536373839404142434445464748495051525354555657585960616263646566676869707172737475767778798081828384858687888990919293949596979899";

// Puts a byte.
#[inline(always)]
pub(crate) fn put_byte(bytes: &mut [u8], at: usize, byte: u8) -> usize
    requires { at < length bytes.old }
    ensures text { take result bytes.new ≡ take at bytes.old ++ byte ∷ [] }
    ensures end { result ≡ at + 1 }
{
    bytes[at] = byte;
    at + 1
}

// Puts 1 for yes, 0 for no.
#[inline(always)]
#[tactic(auto, using(std::proofs::lemmas::Fmt::decimal_digit))]
pub(crate) fn put_bit(bytes: &mut [u8], at: usize, yes: bool) -> usize
    requires { at < length bytes.old }
    ensures text { take result bytes.new ≡ take at bytes.old ++ decimal (bit yes) }
    ensures end { result ≡ at + 1 }
{
    put_byte(bytes, at, b'0' + u8::from(yes))
}

// Puts the two decimal digits of a number below 100.
#[inline(always)]
fn put_pair(bytes: &mut [u8], at: usize, pair: u64) -> usize
    requires { (pair < 100) × (at + 2 ≤ length bytes.old) }
    ensures text { take result bytes.new ≡ take at bytes.old ++ two_digits pair }
    ensures end { result ≡ at + 2 }
{
    let from = pair as usize * 2;
    let (tens, ones) = (DECIMAL_PAIRS[from], DECIMAL_PAIRS[from + 1]);
    let at = put_byte(bytes, at, tens);
    put_byte(bytes, at, ones)
}

// Puts a number below 100 in decimal.
#[inline(always)]
#[tactic(auto, using(std::proofs::lemmas::Fmt::decimal_digit, crate::proofs::DecimalFacts::decimal_two))]
fn put_small(bytes: &mut [u8], at: usize, n: u64) -> usize
    requires { (n < 100) × (at + length (decimal n) ≤ length bytes.old) }
    ensures text { take result bytes.new ≡ take at bytes.old ++ decimal n }
    ensures end { result ≡ at + length (decimal n) }
{
    if n < 10 {
        put_byte(bytes, at, b'0' + n as u8)
    } else {
        put_pair(bytes, at, n)
    }
}

// Puts a number below 10,000 in decimal.
#[inline(always)]
fn put_short(bytes: &mut [u8], at: usize, n: u64) -> usize
    requires { (n < 10000) × (at + length (decimal n) ≤ length bytes.old) }
    ensures text { take result bytes.new ≡ take at bytes.old ++ decimal n }
    ensures end { result ≡ at + length (decimal n) }
{
    if n < 100 {
        return put_small(bytes, at, n);
    }
    let at = put_small(bytes, at, n / 100);
    put_pair(bytes, at, n % 100)
}

// Puts a number of five digits or more in decimal.
fn put_long(bytes: &mut [u8], at: usize, n: u64) -> usize
    requires { (10000 ≤ n) × (at + length (decimal n) ≤ length bytes.old) }
    ensures text { take result bytes.new ≡ take at bytes.old ++ decimal n }
    ensures end { result ≡ at + length (decimal n) }
{
    let (high, low) = (n / 10_000, n % 10_000);
    let at = if high < 10_000 {
        put_short(bytes, at, high)
    } else {
        put_long(bytes, at, high)
    };
    let at = put_pair(bytes, at, low / 100);
    put_pair(bytes, at, low % 100)
}

// Puts a number of five digits in decimal.
#[inline(always)]
#[tactic(auto, using(std::proofs::lemmas::Fmt::decimal_digit))]
fn put_five(bytes: &mut [u8], at: usize, n: u64) -> usize
    requires { (10000 ≤ n) × (n < 100000) × (at + length (decimal n) ≤ length bytes.old) }
    ensures text { take result bytes.new ≡ take at bytes.old ++ decimal n }
    ensures end { result ≡ at + length (decimal n) }
{
    let (high, low) = (n / 10_000, n % 10_000);
    let at = put_byte(bytes, at, b'0' + high as u8);
    let at = put_pair(bytes, at, low / 100);
    put_pair(bytes, at, low % 100)
}

// Puts n in decimal. The fewest digits are asked for first.
#[inline(always)]
pub(crate) fn put_decimal(bytes: &mut [u8], at: usize, n: u64) -> usize
    requires { at + 20 ≤ length bytes.old }
    ensures text { take result bytes.new ≡ take at bytes.old ++ decimal n }
    ensures short { result ≤ at + 20 }
{
    if n < 10 {
        put_small(bytes, at, n)
    } else if n < 10_000 {
        put_short(bytes, at, n)
    } else if n < 100_000 {
        put_five(bytes, at, n)
    } else {
        put_long(bytes, at, n)
    }
}

// Writes the two hexadecimal digits of a byte.
#[inline(always)]
fn write_pair(bytes: &mut [u8], at: usize, byte: u8)
    requires { at + 2 ≤ length bytes.old }
    ensures written { drop at bytes.new
        ≡ digit_in_hex (byte / 16) ∷ digit_in_hex (byte % 16) ∷ drop (at + 2) bytes.old }
    ensures before { take at bytes.new ≡ take at bytes.old }
{
    let from = byte as usize * 2;
    let (high, low) = (HEX_PAIRS[from], HEX_PAIRS[from + 1]);
    bytes[at] = high;
    bytes[at + 1] = low;
}

// Puts the 16 hexadecimal digits of `word`.
#[inline(always)]
#[tactic(auto, unfolding(text::specs::Hex::hex_word))]
pub(crate) fn put_hex(bytes: &mut [u8], at: usize, word: u64) -> usize
    requires { at + 16 ≤ length bytes.old }
    ensures text { take result bytes.new ≡ take at bytes.old ++ hex_word word }
    ensures end { result ≡ at + 16 }
{
    let mut from = at + 16;
    for byte in word.to_le_bytes() {
        from -= 2;
        write_pair(bytes, from, byte);
    }
    at + 16
}

// Puts some bytes.
pub(crate) fn put_text(bytes: &mut [u8], at: usize, text: &[u8]) -> usize
    requires { at + length text.now ≤ length bytes.old }
    ensures text { take result bytes.new ≡ take at bytes.old ++ text.now }
    ensures end { result ≡ at + length text.now }
{
    let end = at + text.len();
    bytes[at..end].copy_from_slice(text);
    end
}
