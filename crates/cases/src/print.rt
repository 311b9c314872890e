// Words and numbers, written to standard output. (A word alone is handed on by `write_all`: to format it takes longer.)
use std::io;

// A word and the number behind it, where that is not 0.
pub(crate) fn counted_if(rt: &impl Print, word: &str, n: u64) -> io::Result<()> {
    if n != 0 {
        print!(rt; "{word}{n}")?;
    }
    Ok(())
}

// A word, where it applies.
pub(crate) fn word_if(rt: &impl Print, word: &str, applies: bool) -> io::Result<()> {
    if applies {
        rt.write_all(word.as_bytes())?;
    }
    Ok(())
}

// Each byte as a space and two hex digits.
pub(crate) fn pairs(rt: &impl Print, bytes: &[u8]) -> io::Result<()> {
    for b in bytes {
        print!(rt; " {b:02X}")?;
    }
    Ok(())
}

// The bytes up to the last that is not the filling one, then that one and how often it stands behind them.
pub(crate) fn pairs_filled(rt: &impl Print, bytes: &[u8], fill: u8) -> io::Result<()> {
    let filled = bytes.iter().rev().take_while(|b| **b == fill).count();
    pairs(rt, &bytes[..bytes.len() - filled])?;
    if filled > 0 {
        print!(rt; " {fill:02X}*{filled}")?;
    }
    Ok(())
}
