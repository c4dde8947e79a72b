// Plain decimal numbers.
ghost use Rattle.std.specs.Prelude.{◌≡◌, ◌+◌, ◌*◌, min};
ghost use Rattle.requests.specs.Decimal.{written};

// The number that the word writes in decimal digits, or `most` where it is greater; none where the word
// is empty or has another byte. The library's `parse` takes a sign too, and refuses a number that is too great.
pub fn decimal(word: &[u8], most: u16) -> Option<u16>
    ensures { result ≡ written word.now most }
{
    if word.is_empty() {
        return None;
    }
    let mut number = 0;
    for byte in word {
        if !byte.is_ascii_digit() {
            return None;
        }
        number = one_more_digit(number, *byte - b'0', most);
    }
    Some(number)
}

// Ten times the number and the digit, or `most` where that is greater.
fn one_more_digit(number: u16, digit: u8, most: u16) -> u16
    ensures { result ≡ min (10 * number + digit) most }
{
    (10 * u32::from(number) + u32::from(digit)).min(u32::from(most)) as u16
}

// The number as the calls of a book take it. Every number from 255 on is below no count, so that 255
// stands for all of them.
pub fn byte_number(word: &[u8]) -> Option<u8>
    ensures { result ≡ written word.now 255 }
{
    u8::try_from(decimal(word, 255)?).ok()
}
