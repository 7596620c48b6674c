// The sums of the room test: what the hard rows claim of the window, and the budgets still unrun; each with a bound, so that they can be added.
ghost use Rattle.std.specs.Prelude.{◌≡◌, ◌^◌, ◌<◌, ◌≤◌};
ghost use Rattle.state.specs.Meaning.{age_at};
ghost use Rattle.offer.specs.Steps.{claim_of, claims_of, future_of, open_of, row_now, unrun_of};

use state::{Rows, State};

// A row as it stands now: its C, T and U, its age, and how long its open job has run, if it has one.
#[derive(Clone, Copy)]
struct RowNow {
    c: u16,
    t: u16,
    u: u16,
    age: u32,
    run: Option<u16>,
}

// What the rows claim of the next d ticks; rows from 16 on are not there.
#[tactic(auto, unfolding(crate::specs::Steps::claims_of))]
pub fn claims(rows: &Rows, s: &State, d: u16) -> u64
    ensures value { result ≡ claims_of rows.now s.now d }
    ensures bound { result < 2 ^ 36 }
{
    let mut sum: u64 = 0;
    for i in 0..rows.table.n.min(16) {
        sum += row_now(rows, s, i).claim(d);
    }
    sum
}

// The row at i, which is asked to be below 16, as has of state does.
fn row_now(rows: &Rows, s: &State, i: usize) -> RowNow
    requires { i < 16 }
    ensures { result ≡ row_now rows.now s.now i }
{
    RowNow {
        c: rows.table.c[i],
        t: rows.table.t[i],
        u: rows.u[i],
        age: age(rows, s, i),
        run: state::has(u32::from(s.open), i).then_some(s.run[i]),
    }
}

// The age of the row at i: T where the rested mark is set.
fn age(rows: &Rows, s: &State, i: usize) -> u32
    requires { i < 16 }
    ensures { result ≡ age_at rows.now s.now i }
{
    if state::has(u32::from(s.rested), i) {
        u32::from(rows.table.t[i])
    } else {
        state::since(s.clock, s.stamp[i])
    }
}

impl RowNow {
    // What its open job, if any, and its future jobs claim of the next d ticks.
    #[tactic(auto, using(crate::proofs::Bounds::claim_le))]
    fn claim(self, d: u16) -> u64
        ensures value { result ≡ claim_of self d }
        ensures bound { result < 2 ^ 32 }
    {
        self.open_claim(d) + self.future_claim(d)
    }

    // The open job, with C − run ticks left, promoted max(0, U − age) ticks from now.
    fn open_claim(self, d: u16) -> u64
        ensures { result ≡ open_of self d self.run }
    {
        let Some(run) = self.run else {
            return 0;
        };
        let left = u32::from(self.c.saturating_sub(run));
        let until = u32::from(self.u).saturating_sub(self.age);
        u64::from(left.min(u32::from(d).saturating_sub(until)))
    }

    // The future jobs, promoted from wait + U on, every T ticks, with wait the ticks until the row is rested: those of the window, d of them at most.
    #[tactic(auto, using(crate::proofs::Bounds::future_le, crate::proofs::Bounds::future_stops))]
    fn future_claim(self, d: u16) -> u64
        ensures { result ≡ future_of self d }
    {
        let wait = u32::from(self.t).saturating_sub(self.age);
        let cost = u64::from(self.c);
        let period = u64::from(self.t);
        let window = u64::from(d);
        let first = u64::from(wait) + u64::from(self.u);
        let mut sum: u64 = 0;
        for k in 0..window {
            let at = first + k * period;
            if window <= at {
                return sum;
            }
            sum += cost.min(window - at);
        }
        sum
    }
}

// The budgets still unrun of the firm jobs queued.
#[tactic(auto, unfolding(crate::specs::Steps::unrun_of))]
pub fn unrun(s: &State) -> u64
    requires { s.now.count ≤ 8 }
    ensures value { result ≡ unrun_of s.now }
    ensures bound { result < 2 ^ 19 }
{
    let mut sum: u64 = 0;
    for i in 0..s.count {
        sum += u64::from(s.budget[i].saturating_sub(s.used[i]));
    }
    sum
}
