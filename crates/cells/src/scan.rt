//! Where the digits of a cell end and what they write, and where the cell ends.
ghost use Rattle.std.specs.Prelude.{◌≡◌, ℕ, length};
ghost use Rattle.cells.specs.Scans.{front, is_stop, RunOf};

/// The digits that a cell starts with, ten at most: how many they are, and the number that they write.
#[derive(Clone, Copy)]
pub(crate) struct DigitRun {
    pub(crate) len: usize,
    pub(crate) value: u64,
}

/// The most digits of a number.
const MOST_DIGITS: usize = 10;

/// Does a cell end before this byte?
pub(crate) fn is_stop(byte: u8) -> bool
    ensures answer { result ≡ is_stop byte }
{
    byte == b',' || byte == b'\n'
}

/// The digits that the bytes start with.
pub(crate) fn digit_run(rest: &[u8]) -> DigitRun
    ensures answer { RunOf rest.now result.len result.value }
{
    let most = &rest[..rest.len().min(MOST_DIGITS)];
    let mut value = 0u64;
    for (len, byte) in most.iter().enumerate() {
        if !byte.is_ascii_digit() {
            return DigitRun { len, value };
        }
        value = value * 10 + u64::from(byte - b'0');
    }
    DigitRun {
        len: most.len(),
        value,
    }
}

/// How many bytes there are before the next comma or line feed, or the end.
pub(crate) fn cell_len(rest: &[u8]) -> usize
    ensures answer { result ≡ length (front rest.now) }
{
    rest.iter()
        .position(|byte| is_stop(*byte))
        .unwrap_or(rest.len())
}
