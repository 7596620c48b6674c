// The upload offer in memory: the checks 15 to 18, and the queue with one more job.
#![tactic(auto)]

mod room; // room.rt: what the hard rows claim of the window, and the budgets still unrun

ghost use Rattle.std.specs.Prelude.{◌≡◌, ◌<◌};
ghost use Rattle.offer.specs.Steps.{queued_in, offer_made};

use refusal::Refusal;
use state::{Rows, State};

// The ticket under which the upload is queued, or the first check that refuses it; a refusal leaves the state as it was.
#[tactic(auto, unfolding(crate::specs::Steps::offer_made))]
pub fn offer(rows: &Rows, s: &mut State, budget: u16, deadline: u16) -> Result<u32, Refusal>
    ensures value { result ≡ (offer_made rows.now s.old budget deadline).offered }
    ensures state_after { s.new ≡ (offer_made rows.now s.old budget deadline).state }
{
    if budget == 0 {
        return Err(Refusal::BZero);
    }
    if deadline < budget {
        return Err(Refusal::DUnderB);
    }
    if 8 <= s.count {
        return Err(Refusal::QueueFull);
    }
    let hard = room::claims(rows, s, deadline);
    let firm = u64::from(budget) + room::unrun(s);
    if u64::from(deadline) < hard + firm {
        return Err(Refusal::RoomShort);
    }
    let ticket = s.next;
    queue(s, budget);
    Ok(ticket)
}

// One more firm job, behind the others, under the next ticket.
fn queue(s: &mut State, budget: u16)
    requires { s.old.count < 8 }
    ensures { s.new ≡ queued_in s.old budget }
{
    let at = s.count;
    s.budget[at] = budget;
    s.used[at] = 0;
    s.ticket[at] = s.next;
    s.count = at + 1;
    s.next = s.next.wrapping_add(1);
}
