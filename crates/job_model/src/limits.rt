//! The limits of tables, scenarios and calls. With them every legal run ends below 2^61: the last
//! release is below 2^48, and 2^14 jobs of a cost below 2^46 each take less than 2^60.

ghost use Rattle.std.specs.Prelude.{◌≡◌};
ghost use Rattle.job_model.specs.TableFaults.{first_above as above};

/// The most jobs of a table.
pub const MOST_JOBS: u16 = 16_384;

/// The most rows of a precedence file.
pub const MOST_EDGES: u32 = 65_536;

/// The most cores.
pub const MOST_CORES: u16 = 256;

/// The latest arrival, in units of time: 2^48 - 1.
pub const MOST_ARRIVAL: u64 = 281_474_976_710_655;

/// The greatest cost, in units of time: 2^46 - 1.
pub const MOST_COST: u64 = 70_368_744_177_663;

/// The latest start of a recorded run, in units of time: 2^62 - 1.
pub const MOST_START: u64 = (1 << 62) - 1;

/// A column of a row: which one it is, the number there, and the greatest that may stand there.
pub type Column = (u8, u64, u64);

/// The first of these columns in which more stands than may.
pub fn first_above(columns: &[Column]) -> Option<u8>
    ensures { result ≡ above columns.now }
{
    let (column, _, _) = columns.iter().find(|(_, number, most)| number > most)?;
    Some(*column)
}
