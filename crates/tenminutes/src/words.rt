// A ten-minute file that was examined: how many records, members and zones it has, a record's part, an area's zone, a price. Nothing is
// tested again: the file keeps its ranges.
ghost use Rattle.std.specs.Prelude.{◌≡◌, ◌≤◌, ◌<◌};
ghost use Rattle.rules.specs.Record as Record;
ghost use Rattle.rules.specs.HourFile.{ten_minutes};
ghost use Rattle.rules.specs.TenMinutes.{ten_minutes_in};
ghost use Rattle.rules.specs.Inner.Kept.{TenMinutesFileKept};
ghost use Rattle.blocks.specs.Part.{record_part};

// A file that keeps its ranges, and of its head how many members and zones there are.
#[derive(Clone, Copy)]
pub struct Hour<'a> {
    pub file: &'a [u8],
    pub members: usize,
    pub zones: usize,
    ghost kept: { TenMinutesFileKept file.now },
    ghost members_are: { members ≡ Record.members (ten_minutes_in file.now) },
    ghost zones_are: { zones ≡ Record.zones (ten_minutes_in file.now) },
}

impl<'a> Hour<'a> {
    pub fn new(file: &'a [u8]) -> Self
        requires { TenMinutesFileKept file.now }
        ensures { result.file.now ≡ file.now }
    {
        Hour {
            file,
            members: blocks::whole_word(file, 9) as usize,
            zones: blocks::whole_word(file, 10) as usize,
        }
    }

    // How many records the file holds.
    pub fn records(&self) -> usize
        ensures { result ≡ (ten_minutes_in self.now.file.now).count }
    {
        blocks::records(rules::ten_minutes(), self.file)
    }

    // Record `i`, a part of the file itself. Whoever reads several words of a record takes this part once.
    pub fn record(&self, i: usize) -> &'a [u8]
        requires { i < (ten_minutes_in self.now.file.now).count }
        ensures { result.now ≡ record_part ten_minutes self.now.file.now i }
    {
        blocks::record(rules::ten_minutes(), self.file, i)
    }

    // The member of record `i`.
    pub fn member_of(&self, i: usize) -> usize
        requires { i < (ten_minutes_in self.now.file.now).count }
        ensures { result ≡ Record.member_of (ten_minutes_in self.now.file.now) i }
    {
        blocks::whole_word(self.record(i), 1) as usize
    }

    // The zone of an area: word 16 of the head, and four words on for each area before.
    pub fn zone_of(&self, area: usize) -> usize
        requires { area < Record.areas (ten_minutes_in self.now.file.now) }
        ensures { result ≡ Record.zone_of (ten_minutes_in self.now.file.now) area }
    {
        blocks::whole_word(self.file, 16 + 4 * area) as usize
    }

    // A price: word `w` of the head in two's complement.
    pub fn price(&self, w: usize) -> i64
        requires { (8 ≤ w) × (w < 128) }
        ensures { result ≡ Record.signed ((ten_minutes_in self.now.file.now).head w) }
    {
        blocks::signed(blocks::whole_word(self.file, w))
    }
}
