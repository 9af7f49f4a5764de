// Where an hour's words stand: in the blocks of a file, or in a head and records as lists. The search is written once for both, and compiled
// for each.
ghost use Rattle.std.specs.Prelude.{◌≡◌, ℕ, ◌-◌, ◌/◌, ◌≤◌, ◌<◌, length, get_or};
ghost use Rattle.rules.specs.Record.{Hour};
ghost use Rattle.rules.specs.HourFile.{word, hour_of};
ghost use Rattle.rules.specs.HourWords.{hour_from};
ghost use Rattle.examine.specs.Whole.{BlocksWhole};

use crate::search::Searched;
use std::marker::PhantomData;

// Words that stand side by side.
pub trait Words {
    ghost count: { Self → ℕ };

    ghost at: { Self → ℕ → ℕ };

    // Word `k`: one load.
    fn word(&self, k: usize) -> u32
        requires { k < count self.now }
        ensures { result ≡ at self.now k };
}

// Four bytes to a word, the lowest first.
impl Words for &[u8] {
    ghost count = { λ part. length part.now / 4 };

    ghost at = { λ part. word part.now };

    fn word(&self, k: usize) -> u32 {
        blocks::whole_word(self, k)
    }
}

impl Words for &[u32] {
    ghost count = { λ part. length part.now };

    ghost at = { λ part k. get_or part.now k 0 };

    fn word(&self, k: usize) -> u32 {
        self[k]
    }
}

// An hour by its words. Whoever reads several words of the head or of a record takes the part once.
pub trait HourWords {
    type Form: Searched;

    type Part: Words + Copy;

    ghost hour: { Self → Hour };

    // The head: words 8 to 127 of the first block.
    fn head(&self) -> Self::Part
        ensures whole { Self.Part.count result ≡ 120 }
        ensures says { (w : ℕ) → 8 ≤ w → w < 128 → Self.Part.at result (w - 8) ≡ (hour self.now).head w };

    // How many records the hour has.
    fn count(&self) -> usize
        ensures { result ≡ (hour self.now).count };

    fn record(&self, i: usize) -> Self::Part
        requires { i < (hour self.now).count }
        ensures whole { Self.Part.count result ≡ Self.Form.form.layout.words }
        ensures says { (w : ℕ) → w < Self.Form.form.layout.words → Self.Part.at result w ≡ (hour self.now).rec i w };
}

// ---- in a file

// A file of this kind that rows 1 and 3 have passed.
#[derive(Drop)]
pub struct FileHour<'a, F: Searched> {
    file: &'a [u8],
    form: PhantomData<F>,
    ghost whole: { BlocksWhole F.form.layout file.now },
}

impl<'a, F: Searched> FileHour<'a, F> {
    pub fn new(file: &'a [u8]) -> Self
        requires { BlocksWhole F.form.layout file.now }
        ensures { result.file.now ≡ file.entry.now }
    {
        FileHour {
            file,
            form: PhantomData,
        }
    }
}

impl<'a, F: Searched> HourWords for FileHour<'a, F> {
    type Form = F;

    type Part = &'a [u8];

    ghost hour = { λ s. hour_of F.form.layout s.file.now };

    fn head(&self) -> &'a [u8] {
        blocks::body(F::layout(), self.file, 0)
    }

    fn count(&self) -> usize {
        blocks::records(F::layout(), self.file)
    }

    fn record(&self, i: usize) -> &'a [u8] {
        blocks::record(F::layout(), self.file, i)
    }
}

// ---- in lists

// A head, and records one behind the other.
#[derive(Drop)]
pub struct ListHour<'a, F: Searched> {
    head: &'a [u32; 120],
    records: &'a [u32],
    form: PhantomData<F>,
}

impl<'a, F: Searched> ListHour<'a, F> {
    pub fn new(head: &'a [u32; 120], records: &'a [u32]) -> Self
        ensures head { result.head.now ≡ head.entry.now }
        ensures records { result.records.now ≡ records.entry.now }
    {
        ListHour {
            head,
            records,
            form: PhantomData,
        }
    }
}

impl<'a, F: Searched> HourWords for ListHour<'a, F> {
    type Form = F;

    type Part = &'a [u32];

    ghost hour = { λ s. hour_from F.form.layout s.head.now s.records.now };

    fn head(&self) -> &'a [u32] {
        let head = self.head;
        &head[..]
    }

    fn count(&self) -> usize {
        self.records.len() / F::layout().words
    }

    fn record(&self, i: usize) -> &'a [u32] {
        let size = F::layout().words;
        let from = size * i;
        let to = from + size;
        &self.records[from..to]
    }
}
