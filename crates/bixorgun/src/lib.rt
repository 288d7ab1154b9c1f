// The six operations for programs in C and Rust: numbers and byte slices alone. An answer is one number.

#![tactic(auto)]

ghost use Rattle.std.specs.Prelude.{◌≡◌, ◌++◌, ◌+◌, ◌≤◌, length, drop};
ghost use Rattle.ledger.specs.Ledger.{refusal_number, denial_told, told, refusal, said, open_reply, request_reply};
ghost use Rattle.ledger.specs.Show.{shown, show_view};
ghost use Rattle.replay.specs.Replay.{said as replay_said, replayed};
ghost use Rattle.planner.specs.Answer.{said as plan_said};
ghost use Rattle.page.specs.Page.{said as page_said};
ghost use Rattle.bixorgun.specs.Codes.{code, refused, told_value, said_code, judgement_code, replay_code, plan_code, page_code};
ghost use Rattle.bixorgun.specs.Codes.{coded, reply_coded, put_two, view_bytes, view_coded, PlanCoded, PageCoded};

use denials::Denial;
use facts::Person;

// What an answer says, in its lowest byte.
// Kept: numbers, no enum as `gate::Fault`: `code` of specs/Codes takes the number that C is handed.
const DONE: u8 = 0;

const REFUSED: u8 = 1;

const NO_WAY: u8 = 2;

const PLAN: u8 = 3;

const REACHES: u8 = 4;

const STOPS: u8 = 5;

const ENDS_SHORT: u8 = 6;

const NO_ROOM: u8 = 7;

// A result, a refusal's number and what is told beside it as one number.
fn code_of(res: u8, number: u8, value: usize) -> u64
    ensures { result ≡ code res number value }
{
    // Kept: `as`, since there is no `From<usize>` for `u64`.
    let v = (value as u64) % 281474976710656;
    u64::from(res) + 256 * u64::from(number) + 65536 * v
}

// A refusal, by its number and what is told beside it.
fn refused_code(number: u8, value: usize) -> u64
    ensures { result ≡ code refused number value }
{
    code_of(REFUSED, number, value)
}

// The value beside 13 and 15.
fn denial_value(d: Denial) -> usize
    ensures { result ≡ told_value (denial_told d) }
{
    match d {
        Denial::NoRule => 0,
        Denial::Unmet(rule, term) => 256 * usize::from(rule) + usize::from(term),
    }
}

// The value beside a refusal's number.
fn told_value(r: ledger::Refusal) -> usize
    ensures { result ≡ told_value (told r) }
{
    match r {
        ledger::Refusal::BadBook(b) => frames::refusal_line(b),
        ledger::Refusal::BadLedger | ledger::Refusal::BadRequest => 0,
        ledger::Refusal::NotPermitted(d) => denial_value(d),
    }
}

fn refusal_code(r: ledger::Refusal) -> u64
    ensures { result ≡ said_code (refusal (refusal_number r) (told r)) }
{
    refused_code(ledger::refusal_number(r), told_value(r))
}

fn outcome_code(o: Result<(), ledger::Refusal>) -> u64
    ensures { result ≡ said_code (said o) }
{
    match o {
        Ok(()) => code_of(DONE, 0, 0),
        Err(r) => refusal_code(r),
    }
}

fn judgement_code(j: replay::Judgement) -> u64
    ensures { result ≡ judgement_code j }
{
    match j {
        replay::Judgement::Reaches => code_of(REACHES, 0, 0),
        replay::Judgement::Stops(k) => code_of(STOPS, 0, k),
        replay::Judgement::EndsShort => code_of(ENDS_SHORT, 0, 0),
    }
}

fn replay_code(a: Result<replay::Judgement, replay::Refusal>) -> u64
    ensures { result ≡ replay_code (replay_said a) }
{
    match a {
        Ok(j) => judgement_code(j),
        Err(r) => refused_code(replay::refusal_number(r), frames::lent_line(r)),
    }
}

fn plan_code(a: Result<Option<usize>, planner::Refusal>) -> u64
    ensures { result ≡ plan_code (plan_said a) }
{
    match a {
        Ok(None) => code_of(NO_WAY, 0, 0),
        Ok(Some(n)) => code_of(PLAN, 0, n),
        Err(r) => refused_code(planner::refusal_number(r), frames::lent_line(r)),
    }
}

fn page_code(a: Result<(), page::Refusal>) -> u64
    ensures { result ≡ page_code (page_said a) }
{
    match a {
        Ok(()) => code_of(DONE, 0, 0),
        Err(r) => refused_code(page::refusal_number(r), frames::lent_line(r)),
    }
}

// Writes the ledger of starting facts.
#[unsafe(no_mangle)]
pub extern "C" fn bixorgun_open(book: &[u8], state: &mut [u8]) -> u64
    ensures { coded result state.new ≡ reply_coded (open_reply book.now state.old) }
{
    outcome_code(ledger::open(book, state))
}

// Carries out a request on a ledger.
#[unsafe(no_mangle)]
pub extern "C" fn bixorgun_request(book: &[u8], state: &mut [u8], request: &[u8]) -> u64
    ensures { coded result state.new ≡ reply_coded (request_reply book.now state.old request.now) }
{
    outcome_code(ledger::request(book, state, request))
}

// A set as two bytes at a place.
fn put_two(view: &mut [u8], at: usize, x: u32)
    requires { (at ≤ 18) × (at + 2 ≤ length view.old) }
    ensures { view.new ≡ put_two view.old at x }
{
    // Kept: a set of 32 bits by its lower half; `to_be_bytes` after a cast and `copy_from_slice` is no plainer, nor is `answers::pair`, of a `usize`.
    view[at] = (x / 256 % 256) as u8;
    view[at + 1] = (x % 256) as u8;
}

// What show gives, in the buffer's front.
fn write_view(sets: [u32; 8], crews: u32, view: &mut [u8])
    requires { 20 ≤ length view.old }
    ensures { view.new ≡ view_bytes sets crews ++ drop 20 view.old }
{
    for (i, set) in sets.iter().enumerate() {
        put_two(view, 2 * i, *set);
    }
    put_two(view, 16, crews / 65536);
    put_two(view, 18, crews);
}

// What show gives, in the buffer's front where there is room.
fn put_view(s: ledger::Shown, view: &mut [u8]) -> u64
    ensures { coded result view.new ≡ view_coded (shown s.sets s.crews) view.old }
{
    if view.len() < 20 {
        return code_of(NO_ROOM, 0, 0);
    }
    write_view(s.sets, s.crews, view);
    code_of(DONE, 0, 0)
}

// Shows a person's effective sets and crews.
#[unsafe(no_mangle)]
pub extern "C" fn bixorgun_show(book: &[u8], state: &[u8], person: u8, view: &mut [u8]) -> u64
    ensures { coded result view.new ≡ view_coded (show_view book.now state.now (record { 0 = person })) view.old }
{
    match ledger::show(book, state, Person(person)) {
        Ok(s) => put_view(s, view),
        Err(r) => refusal_code(r),
    }
}

// Judges a list of requests from the starting facts.
#[unsafe(no_mangle)]
pub extern "C" fn bixorgun_replay(book: &[u8], plan: &[u8]) -> u64
    ensures { result ≡ replay_code (replayed book.now plan.now) }
{
    replay_code(replay::replay(book, plan))
}

// Plans the query of a book: no way, or a plan in the front of `out`.
#[unsafe(no_mangle)]
pub extern "C" fn bixorgun_plan(book: &[u8], out: &mut [u8]) -> u64
    ensures { PlanCoded book.now out.old result out.new }
{
    plan_code(planner::plan(book, out))
}

// Fills the table: a bit for each person and value, set where a plan reaches it.
#[unsafe(no_mangle)]
pub extern "C" fn bixorgun_page(book: &[u8], table: &mut [u8]) -> u64
    ensures { PageCoded book.now table.old result table.new }
{
    page_code(page::page(book, table))
}
