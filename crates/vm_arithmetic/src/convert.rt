ghost use Rattle.std.specs.Prelude.{◌≡◌, ◌<◌};
ghost use Rattle.vm_arithmetic.specs.Arithmetic.{short_to_byte, int_to_byte, int_to_short, compared, short_of_word, int_of_words, high_word, low_word, low_byte};

/// The low eight bits, with their sign.
pub fn short_to_byte(value: i16) -> i16
    ensures { result ≡ short_to_byte value }
{
    low_byte(u32::from(value.cast_unsigned()))
}

/// The low eight bits, with their sign.
pub fn int_to_byte(value: i32) -> i16
    ensures { result ≡ int_to_byte value }
{
    low_byte(value.cast_unsigned())
}

/// The low sixteen bits.
pub fn int_to_short(value: i32) -> i16
    ensures { result ≡ int_to_short value }
{
    ((value.cast_unsigned() & 0xffff) as u16).cast_signed()
}

/// -1, 0 or 1 as the first is less than the second, equal or greater.
pub fn compare_ints(first: i32, second: i32) -> i16
    ensures { result ≡ compared first second }
{
    if first < second {
        -1
    } else if second < first {
        1
    } else {
        0
    }
}

/// The short that a word stands for.
pub fn short_of_word(word: u16) -> i16
    ensures { result ≡ short_of_word word }
{
    word.cast_signed()
}

/// The int of its high and its low word.
pub fn int_of_words(high: u16, low: u16) -> i32
    ensures { result ≡ int_of_words high low }
{
    (u32::from(high) * 0x10000 + u32::from(low)).cast_signed()
}

/// The upper 16 bits of an int.
pub fn high_word(value: i32) -> u16
    ensures { result ≡ high_word value }
{
    (value.cast_unsigned() >> 16) as u16
}

/// The lower 16 bits of an int.
pub fn low_word(value: i32) -> u16
    ensures { result ≡ low_word value }
{
    (value.cast_unsigned() & 0xffff) as u16
}

fn low_byte(word: u32) -> i16
    ensures { result ≡ low_byte word }
{
    i16::from(((word & 0xff) as u8).cast_signed())
}
