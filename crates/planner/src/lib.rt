// The planner: what can be reached, level by level or in a book that only grows, and a plan out of the requests written on the way.

#![tactic(auto)]

ghost use Rattle.std.specs.Prelude.{Ok, ◌≡◌, ◌+◌, ◌-◌, ◌*◌, ◌≤◌, ◌<◌, length, drop, ◌++◌};
ghost use Rattle.frames.specs.Book.{contents_of};
ghost use Rattle.frames.specs.Inner.Fits.{Admitted};
ghost use Rattle.facts.specs.Facts.{holds};
ghost use Rattle.replay.specs.Met.{met};
ghost use Rattle.reach.specs.Inner.Leveled.{Leveled};
ghost use Rattle.level.specs.Inner.Settle.{found_of, ups_of, at_of};
ghost use Rattle.drafts.specs.Inner.Drafts.{carried, flat};
ghost use Rattle.planner.specs.Answer.{refusal_number, said, Answered, PlanPromise};
ghost use Rattle.planner.specs.Inner.Found.{PlanFound, plan_reply, given};
ghost use Rattle.search.specs.Inner.Drive.{drafted};
ghost use Rattle.widths.specs.Inner.Widths.{depot_size, draft_size};

use frames::Book;
use level::Ends;
use widths::{DEPOT_SIZE, DRAFT_SIZE};

// The book's refusals, and 10, where the caller's buffer is too short.
pub use frames::LentRefusal as Refusal;

// The table's number of a refusal.
pub fn refusal_number(r: Refusal) -> u8
    ensures { result ≡ refusal_number r }
{
    frames::lent_number(10, r)
}

// Whether the requests of two buffers, carried out from the starting facts, end with a ledger that meets the query.
// Kept: the two buffers beside the ends, here and below, not `level::Draft`, whose buffers are lent to be written; a struct of two that are only read,
// made at each call and with its lengths as clauses, is no plainer.
fn is_reached(b: &Book, up: &[u8], down: &[u8], e: Ends) -> bool
    requires admitted { Admitted (contents_of b.now) × ((e.ups ≤ depot_size) × (e.at ≤ depot_size)) }
    requires up_len { (length up.now ≡ draft_size) × (length down.now ≡ draft_size) }
    ensures { result ≡ met (contents_of b.now) (holds (carried b.now.facts (drafted up.now e.ups down.now e.at))) }
{
    let mut ledger = b.facts;
    drafts::carry_out(&mut ledger, up, 0, e.ups);
    drafts::carry_out(&mut ledger, down, e.at, DEPOT_SIZE - e.at);
    replay::is_met(b, &ledger)
}

// The requests of the best plan, found where they lead to a ledger that meets the query; none else.
// Kept: `Leveled` as a clause, as `search::search` asks for it: a struct that lends a book with it would be no plainer for one call.
fn best_plan(b: &Book, up: &mut [u8], down: &mut [u8]) -> Option<Ends>
    requires leveled { Leveled (contents_of b.now) }
    requires up_len { (length up.old ≡ draft_size) × (length down.old ≡ draft_size) }
    ensures { PlanFound (contents_of b.now) up.new down.new (found_of result) (ups_of result) (at_of result) }
{
    search::search(b, up, down).filter(|e| is_reached(b, up, down, *e))
}

// The requests of a plan, by the query's mode: a book of mode 03 only grows, and any other is planned by levels.
// Kept: one `if` on the mode, a number since `query_of` of frames gives it as written; a closure or an enum for two ways is no plainer.
fn find_plan(b: &Book, up: &mut [u8], down: &mut [u8]) -> Option<Ends>
    requires admitted { Admitted (contents_of b.now) }
    requires up_len { (length up.old ≡ draft_size) × (length down.old ≡ draft_size) }
    ensures { PlanFound (contents_of b.now) up.new down.new (found_of result) (ups_of result) (at_of result) }
{
    if b.query.mode != 3 {
        best_plan(b, up, down)
    } else {
        let ups = own::find(b, up)?;
        Some(Ends {
            ups,
            at: DEPOT_SIZE,
        })
    }
}

// Writes the plan to the front of the caller's buffer.
fn write_plan(up: &[u8], down: &[u8], e: Ends, out: &mut [u8]) -> usize
    requires ups_le_depot_size { (e.ups ≤ depot_size) × ((e.at ≤ depot_size) × (5 * (e.ups + (depot_size - e.at)) ≤ length out.old)) }
    requires up_len { (length up.now ≡ draft_size) × (length down.now ≡ draft_size) }
    ensures { (result ≡ e.ups + (depot_size - e.at)) ×
        (out.new ≡ flat (drafted up.now e.ups down.now e.at) ++ drop (5 * (e.ups + (depot_size - e.at))) out.old) }
{
    let downs = DEPOT_SIZE - e.at;
    drafts::copy_requests(up, 0, e.ups, out, 0);
    drafts::copy_requests(down, e.at, downs, out, e.ups);
    e.ups + downs
}

// The answer to what was found: no way, or the plan in the front of the caller's buffer.
fn give(found: Option<Ends>, up: &[u8], down: &[u8], out: &mut [u8]) -> Option<usize>
    requires ups_le_depot_size { (ups_of found ≤ depot_size) × ((at_of found ≤ depot_size) × (5 * (ups_of found + (depot_size - at_of found)) ≤ length out.old)) }
    requires up_len { (length up.now ≡ draft_size) × (length down.now ≡ draft_size) }
    ensures { plan_reply (said (Ok result)) out.new ≡ given (found_of found) (drafted up.now (ups_of found) down.now (at_of found)) out.old }
{
    let e = found?;
    Some(write_plan(up, down, e, out))
}

// Plans an accepted book.
fn plan_in(b: &Book, out: &mut [u8]) -> Result<Option<usize>, Refusal>
    requires { Admitted (contents_of b.now) }
    ensures { Answered (contents_of b.now) out.old (said result) out.new }
{
    let f = sizes::fact_count(b.sizes);
    if out.len() < 10 * f {
        return Err(Refusal::BadLength);
    }
    let mut up = [0u8; DRAFT_SIZE];
    let mut down = [0u8; DRAFT_SIZE];
    let found = find_plan(b, &mut up, &mut down);
    Ok(give(found, &up, &down, out))
}

// Plans the query of a book, given as characters: no way, `None`, or a plan of so many requests in the front of `out`.
pub fn plan(book: &[u8], out: &mut [u8]) -> Result<Option<usize>, Refusal>
    ensures { PlanPromise book.now out.old result out.new }
{
    let mut b = frames::no_book();
    frames::read_into(book, false, &mut b)?;
    plan_in(&b, out)
}
