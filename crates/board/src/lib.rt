// What a C kernel calls: planning, the tick, the upload offer and the table read back, on numbers and a lent block of 512 bytes.
#![tactic(auto)]

ghost use Rattle.std.specs.Prelude.{◌≡◌, unwrap_or};
ghost use Rattle.rules.specs.Calls.{done_flag, soft_flag};
ghost use Rattle.refusal.specs.Refusals.{number_of};
ghost use Rattle.answer.specs.Below.{AnswerBelow};
ghost use Rattle.board.specs.Numbers.{refused_offer, refused_plan, refused_table, refused_tick, stepped_tick};
ghost use Rattle.board.specs.Blocks.{plan_block, tick_block, offer_block, table_block};

use answer::Answer;
use refusal::Refusal;
use table::{FileRefusal, PlannedTable};
use wire::Part;

// What C gets is in numbers, kinds and refusals too, each answer in a struct of its own.
// refusal: 0, or the documents' number. row: of 6 to 10, 21 and 22, else 0. from, size: the shown part of the table file, of 1 to 10, 21 and 22, else 0.
#[repr(C)]
#[derive(Clone, Copy, Default)]
pub struct PlanAnswer {
    pub from: usize,
    pub size: usize,
    pub refusal: u8,
    pub row: u8,
}

// refusal: 0, or document 01's number: 11 or 20. The notes: unknown has the bits of 12, none_ran is 1 for 13, not_ready has the bits of 14.
// runner: 1 hard, with its row and band (1 upper, 2 lower), 2 firm, with its ticket, 3 soft, 4 idle.
// closed: 0 nothing, 1 hard, with its row, 2 firm, with its ticket; closing: 1 done, 2 spent. A refusal has 0 in every other field.
#[repr(C)]
#[derive(Clone, Copy, Default)]
pub struct TickAnswer {
    pub clock: u32,
    pub ticket: u32,
    pub closed_ticket: u32,
    pub unknown: u16,
    pub not_ready: u16,
    pub refusal: u8,
    pub none_ran: u8,
    pub runner: u8,
    pub runner_row: u8,
    pub band: u8,
    pub closed: u8,
    pub closed_row: u8,
    pub closing: u8,
}

// refusal: 0, or document 01's number, and then ticket is 0.
#[repr(C)]
#[derive(Clone, Copy, Default)]
pub struct OfferAnswer {
    pub ticket: u32,
    pub refusal: u8,
}

// refusal: 0, or document 01's number, and then size is 0.
#[repr(C)]
#[derive(Clone, Copy, Default)]
pub struct TableAnswer {
    pub size: usize,
    pub refusal: u8,
}

// Plans the table of a file into a fresh block: 11 for its length only, then 1 to 10, 21 and 22. A refusal writes nothing.
#[unsafe(no_mangle)]
#[tactic(auto, unfolding(crate::specs::Blocks::plan_block))]
pub extern "C" fn heechstjer_plan(block: &mut [u8], table: &[u8]) -> PlanAnswer
    ensures value { result ≡ (plan_block block.old table.now).answer }
    ensures block_after { block.new ≡ (plan_block block.old table.now).block }
{
    if block.len() != block::BLOCK_BYTES {
        return refused_plan(FileRefusal {
            why: Refusal::NotImage,
            row: None,
            part: Part { from: 0, size: 0 },
        });
    }
    match table::read_table(table) {
        Err(refusal) => refused_plan(refusal),
        Ok(PlannedTable { table, plan }) => {
            let fresh = state::fresh_state(table.n);
            block::encode(state::planned_rows(table, plan), fresh, block);
            PlanAnswer::default()
        }
    }
}

// One tick: 20, 11; 12, 13 and 14 are noted in the answer. A refusal leaves the block as it was.
#[unsafe(no_mangle)]
#[tactic(auto, unfolding(crate::specs::Blocks::tick_block))]
pub extern "C" fn heechstjer_tick(block: &mut [u8], set: u16, flags: u8) -> TickAnswer
    ensures value { result ≡ (tick_block block.old set flags).answer }
    ensures block_after { block.new ≡ (tick_block block.old set flags).block }
{
    if 4 <= flags {
        return refused_tick(Refusal::UnknownFlag);
    }
    let Some(decoded) = block::decode(block) else {
        return refused_tick(Refusal::NotImage);
    };
    let mut stepped = decoded.state;
    let answer = dispatch::tick(
        &decoded.rows,
        &mut stepped,
        set,
        done_flag(flags),
        soft_flag(flags),
    );
    block::write_state(stepped, block);
    stepped_tick(answer)
}

// One offer: 11, 15, 16, 17, 18. A refusal leaves the block as it was.
#[unsafe(no_mangle)]
#[tactic(auto, unfolding(crate::specs::Blocks::offer_block))]
pub extern "C" fn heechstjer_offer(block: &mut [u8], budget: u16, deadline: u16) -> OfferAnswer
    ensures value { result ≡ (offer_block block.old budget deadline).answer }
    ensures block_after { block.new ≡ (offer_block block.old budget deadline).block }
{
    let Some(mut decoded) = block::decode(block) else {
        return refused_offer(Refusal::NotImage);
    };
    let offered = offer::offer(&decoded.rows, &mut decoded.state, budget, deadline);
    // let .. else, the form that document 01's list has here (docs/DECISIONS.md), so unwrap_err.
    let Ok(ticket) = offered else {
        return refused_offer(offered.unwrap_err());
    };
    block::write_state(decoded.state, block);
    OfferAnswer { ticket, refusal: 0 }
}

// Writes the table of a block as its file to the front of out: 11, then 5 to 10 and 22, then 19. A refusal writes nothing.
#[unsafe(no_mangle)]
#[tactic(auto, unfolding(crate::specs::Blocks::table_block))]
pub extern "C" fn heechstjer_table(block: &[u8], out: &mut [u8]) -> TableAnswer
    ensures value { result ≡ (table_block block.now out.old).answer }
    ensures out_after { out.new ≡ (table_block block.now out.old).block }
{
    let Some(decoded) = block::decode(block) else {
        return refused_table(Refusal::NotImage);
    };
    match table::write_table(decoded.rows.table, out) {
        Err(why) => refused_table(why),
        Ok(size) => TableAnswer { size, refusal: 0 },
    }
}

// A refusal in the struct of each call, of which C has one for each.
fn refused_plan(refusal: FileRefusal) -> PlanAnswer
    ensures { result ≡ refused_plan (number_of refusal.why) (unwrap_or refusal.row 0) refusal.part.from refusal.part.size }
{
    PlanAnswer {
        from: refusal.part.from,
        size: refusal.part.size,
        refusal: refusal.why.number(),
        row: refusal.row.unwrap_or(0),
    }
}

fn refused_tick(why: Refusal) -> TickAnswer
    ensures { result ≡ refused_tick (number_of why) }
{
    TickAnswer {
        refusal: why.number(),
        ..TickAnswer::default()
    }
}

fn refused_offer(why: Refusal) -> OfferAnswer
    ensures { result ≡ refused_offer (number_of why) }
{
    OfferAnswer {
        ticket: 0,
        refusal: why.number(),
    }
}

fn refused_table(why: Refusal) -> TableAnswer
    ensures { result ≡ refused_table (number_of why) }
{
    TableAnswer {
        size: 0,
        refusal: why.number(),
    }
}

// Bit 0 and bit 1, as event tests those of a file: a type for both would stand in wire, which is about files, and say no more.
fn done_flag(flags: u8) -> bool
    ensures { result ≡ done_flag flags }
{
    flags % 2 == 1
}

fn soft_flag(flags: u8) -> bool
    ensures { result ≡ soft_flag flags }
{
    flags / 2 % 2 == 1
}

fn stepped_tick(answer: Answer) -> TickAnswer
    requires { AnswerBelow answer }
    ensures { result ≡ stepped_tick answer }
{
    let runs = answer::runner_numbers(answer.runner);
    let closes = answer::closing_numbers(answer.closing);
    let notes = answer.notes;
    TickAnswer {
        clock: answer.clock,
        ticket: runs.ticket,
        closed_ticket: closes.ticket,
        unknown: notes.unknown,
        not_ready: notes.not_ready,
        refusal: 0,
        none_ran: u8::from(notes.none_ran),
        runner: runs.kind,
        runner_row: runs.row,
        band: runs.band,
        closed: closes.kind,
        closed_row: closes.row,
        closing: closes.how,
    }
}
