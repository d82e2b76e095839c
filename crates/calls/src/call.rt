//! Calls as lines of text.
ghost use Rattle.calls.specs.Call.{ReadsCall};

use anyhow::{Result, bail};
use hex::FromHex;

/// A call of a level.
#[derive(Clone, Copy)]
pub enum Call {
    /// `read LINE`
    Read(u32),
    /// `write LINE MASK BYTES`, mask and bytes in hex
    Write(u32, u16, [u8; 16]),
    /// `step`
    Step,
    /// `standing LINE`
    Standing(u32),
}

impl Call {
    /// Reads a call from the words of its line.
    pub fn read(words: &[&str]) -> Result<Call>
        ensures { ReadsCall words.now result }
    {
        match *words {
            ["read", line] => Ok(Call::Read(line.parse()?)),
            ["write", line, mask, new] => Ok(Call::Write(
                line.parse()?,
                u16::from_str_radix(mask, 16)?,
                FromHex::from_hex(new)?,
            )),
            ["step"] => Ok(Call::Step),
            ["standing", line] => Ok(Call::Standing(line.parse()?)),
            _ => bail!("no call"),
        }
    }
}
