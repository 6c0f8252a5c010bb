// The writer: "channel ends, placements and instructions as lists of numbers" become a table's bytes in a lent buffer.
ghost use Rattle.std.specs.Prelude.{◌≡◌, ◌+◌, ◌≤◌, length, take};
ghost use Rattle.numbers.specs.Runs.{number_in};
ghost use Rattle.rules.specs.Format.{table_most, validate_table};
ghost use Rattle.rules.specs.Encode.{encode, validate_lists};
ghost use Rattle.writer.specs.Given.{given_by, Fitting};
ghost use Rattle.writer.specs.Fitted.{fitted};
ghost use Rattle.writer.specs.Writes.{Writes};

use numbers::runs::Refusal;
use table::decode;
use table::format::TABLE_MOST;

// The longest table: its length field, and as many bytes as that says at most.
pub const TABLE_BYTES: usize = 2 + TABLE_MOST;

// What a table's head says behind its length: version, boards, processes and channels.
#[derive(Clone, Copy)]
pub struct Head {
    pub version: u32,
    pub boards: u32,
    pub processes: u32,
    pub channels: u32,
}

// The lists that say a table: its head; two numbers for each channel, three for each process, one limit for each where the version has them,
// and three for each instruction.
#[derive(Clone, Copy)]
pub struct Lists<'a> {
    pub head: Head,
    pub ends: &'a [u32],
    pub placements: &'a [u32],
    pub limits: &'a [u32],
    pub instructions: &'a [u32],
}

// The first bytes of a buffer, as the reader judges them.
fn judge_front(bytes: &[u8], size: usize) -> Result<(), Refusal>
    requires { size ≤ length bytes.now }
    ensures { number_in result ≡ validate_table (take size bytes.now) }
{
    decode(&bytes[..size])?;
    Ok(())
}

impl Lists<'_> {
    // 5 to 8 and 47: the table is laid out, and the reader judges it.
    fn judge_laid(&self, total: usize) -> Result<(), Refusal>
        requires fitting { Fitting (given_by self.now) }
        requires total_value { (total ≡ length (encode (fitted (given_by self.now)))) × (total ≤ 2 + table_most) }
        ensures { number_in result ≡ validate_lists (given_by self.now) }
    {
        let mut bytes = [0u8; TABLE_BYTES];
        self.lay(&mut bytes, total);
        judge_front(&bytes, total)
    }

    // The table goes to the front of `out`, what is behind it stays, and its length is returned. Refused, by 2 to 8 and 47 as the reader refuses
    // or by 45 for a buffer that is too short, `out` stays as it was.
    pub fn write(&self, out: &mut [u8]) -> Result<u32, Refusal>
        ensures { Writes (given_by self.now) out.old result out.new }
    {
        self.judge_lists()?;
        let total = self.table_length();
        self.judge_laid(total)?;
        if total > out.len() {
            return Err(Refusal::NoRoom);
        }
        self.lay(out, total);
        Ok(total as u32)
    }
}
