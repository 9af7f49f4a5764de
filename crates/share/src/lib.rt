// A size shared over demands in whole units, by largest remainders: `rules`' definition `share_size`, with everybody taking part.
// Who takes no part is not passed. Sizes only: the sign is put on by the caller.
// Nothing is held for a demand, neither whole part nor remainder: each is worked out again where it is needed, and the sizes come to stand
// where the demands stood. The units left over go to the largest remainders down to some bound, which is found by bisection.
#![tactic(auto)]

ghost use Rattle.std.specs.Prelude.{◌≡◌, ◌/◌, ◌≤◌, ◌<◌, length};
ghost use Rattle.whole.specs.Below.{replacing_first};
ghost use Rattle.share.specs.Shareable.{demanded, Shareable, shares_in};
ghost use Rattle.share.specs.Steps.{Dividing, left_of, count_above, Between, Suffices, size_of};

// ---- the steps

// The sum of the demands.
fn total(demands: &[u64]) -> u64
    requires { demanded demands.now < 18446744073709551616 }
    ensures { result ≡ demanded demands.now }
{
    demands.iter().sum()
}

// Every remainder above `bound` gets a unit, and the first `spare` of those equal to it.
#[derive(Drop)]
struct Cut {
    bound: u64,
    spare: u64,
}

// A size to be divided by the demands, whose sum is `t`.
#[derive(Drop)]
struct Division<'a> {
    demands: &'a [u64],
    size: u64,
    t: u64,
    ghost divides: { Dividing demands.now size t },
}

impl Division<'_> {
    // What the whole parts leave over: so many units, and so many remainders above half of `t`. A division gives both, so that the search
    // below has its first count without a pass of its own.
    fn left_over(&self) -> (u64, u64)
        ensures units { result.0 ≡ left_of self.now.demands.now self.now.size }
        ensures above { result.1 ≡ count_above self.now.demands.now self.now.size (self.now.t / 2) }
    {
        let half = self.t / 2;
        let mut handed: u64 = 0;
        let mut above: u64 = 0;
        for demand in self.demands {
            let product = *demand * self.size;
            handed += product / self.t;
            above += u64::from(half < product % self.t);
        }
        (self.size - handed, above)
    }

    // How many remainders are above `bound`.
    fn count_above(&self, bound: u64) -> u64
        ensures { result ≡ count_above self.now.demands.now self.now.size bound }
    {
        // A `for`: tried, and counting by `.filter(..).count()` makes sharing a sixth dearer.
        let mut count: u64 = 0;
        for demand in self.demands {
            count += u64::from(bound < *demand * self.size % self.t);
        }
        count
    }

    // Down to which remainder the units suffice. At least as many remainders as units are above `low`, and `spare` fewer than units above
    // `high`. It is found as soon as just as many are above `high`, and at the latest where nothing is left between the two.
    fn search(&self, units: u64, from: u64, to: u64, left: u64) -> Cut
        requires { Between self.now.demands.now self.now.size units from to left }
        ensures { Suffices self.now.demands.now self.now.size units result.bound result.spare }
    {
        // Stays a while: a bisection goes over no items, so that neither a `for` nor a chain is plainer.
        let mut low = from;
        let mut high = to;
        let mut spare = left;
        while 0 < spare && 1 < high - low {
            let middle = low + (high - low) / 2;
            let above = self.count_above(middle);
            if units < above {
                low = middle;
            } else {
                high = middle;
                spare = units - above;
            }
        }
        Cut { bound: high, spare }
    }

    // The same from 0 to `t`, where `above` remainders are above half of it.
    fn threshold(&self, units: u64, above: u64) -> Cut
        requires enough { units ≤ count_above self.now.demands.now self.now.size 0 }
        requires counted { above ≡ count_above self.now.demands.now self.now.size (self.now.t / 2) }
        ensures { Suffices self.now.demands.now self.now.size units result.bound result.spare }
    {
        let half = self.t / 2;
        if units < above {
            return self.search(units, half, self.t, units);
        }
        self.search(units, 0, half, units - above)
    }
}

// The sizes, where the demands stood. A remainder equal to the bound counts as one more while units are spare for such.
fn put_sizes(places: &mut [u64], size: u64, t: u64, cut: Cut)
    requires { Dividing places.old size t }
    ensures { places.new
        ≡ replacing_first (size_of places.old size cut.bound cut.spare) (length places.old) places.old }
{
    let mut equal: u64 = 0;
    for place in places.iter_mut() {
        let product = *place * size;
        let rest = product % t;
        *place = product / t + u64::from(cut.bound < rest + u64::from(equal < cut.spare));
        equal += u64::from(rest == cut.bound);
    }
}

// ---- sharing

// The sizes of the shares of `size` over the demands, each in the place of its demand. Where all demands are 0 the shares are too.
pub fn share_in_place(places: &mut [u64], size: u64)
    requires { Shareable places.old size places.old }
    ensures { places.new ≡ shares_in places.old size places.old }
{
    let t = total(places);
    if t == 0 {
        return;
    }
    let division = Division {
        demands: places,
        size,
        t,
    };
    let (units, above) = division.left_over();
    let cut = division.threshold(units, above);
    put_sizes(places, size, t, cut);
}
