// Drafts of plans: their requests carried out on a ledger, and copied from one buffer to another.

#![tactic(auto)]

ghost use Rattle.std.specs.Prelude.{◌≡◌, ◌++◌, map, ◌+◌, ◌*◌, ◌≤◌, length, take, drop};
ghost use Rattle.reach.specs.Inner.Tracked.{bytes_of};
ghost use Rattle.level.specs.Inner.Notes.{asks};
ghost use Rattle.drafts.specs.Inner.Drafts.{carried, flat};

// Carries out the n requests of a draft from request `from` on, without asking whether they are permitted.
// Kept: the draft with `from` and `n`, here and below, no cut of it: `asks` of level/Inner/Notes takes them.
pub fn carry_out(ledger: &mut [u8], draft: &[u8], from: usize, n: usize)
    requires { 5 * (from + n) ≤ length draft.now }
    ensures { ledger.new ≡ carried ledger.old (map bytes_of (asks draft.now from n)) }
{
    for request in draft[5 * from..5 * (from + n)].chunks_exact(5) {
        ledger::carry_out(ledger, requests::request_of(request));
    }
}

// Copies n requests of a draft from request `from` on to the place of request `at` of `out`.
// Kept: one call under a name: its contract says in requests what is copied.
pub fn copy_requests(draft: &[u8], from: usize, n: usize, out: &mut [u8], at: usize)
    requires { (5 * (from + n) ≤ length draft.now) × (5 * (at + n) ≤ length out.old) }
    ensures { out.new ≡ take (5 * at) out.old ++
        (flat (map bytes_of (asks draft.now from n)) ++ drop (5 * (at + n)) out.old) }
{
    out[5 * at..5 * (at + n)].copy_from_slice(&draft[5 * from..5 * (from + n)]);
}
