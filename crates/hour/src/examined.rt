// An hour file that was examined, with what the stages take from its head.
ghost use Rattle.std.specs.Prelude.{◌≡◌};
ghost use Rattle.rules.specs.Record as Records;
ghost use Rattle.rules.specs.HourFile.{hour_in};
ghost use Rattle.rules.specs.Inner.Kept.{FileKept};
ghost use Rattle.hour.specs.Prices.{prices_of};

// The file, which keeps its ranges; how many members, areas and records there are; and each area's zone price, 0 past the areas. The head is
// read once and lent on.
#[derive(Clone, Copy)]
pub struct Hour<'a> {
    pub file: &'a [u8],
    pub members: usize,
    pub areas: usize,
    pub records: usize,
    pub prices: [i64; 8],
    pub ghost kept: { FileKept file.now },
    pub ghost members_are: { members ≡ Records.members (hour_in file.now) },
    pub ghost areas_are: { areas ≡ Records.areas (hour_in file.now) },
    pub ghost records_are: { records ≡ (hour_in file.now).count },
    pub ghost prices_are: { prices ≡ prices_of (hour_in file.now) },
}
