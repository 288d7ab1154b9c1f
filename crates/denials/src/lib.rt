// Why no rule permits a request: no rule has its op, role, a and v, or the first that has them has an unmet term.

#![tactic(auto)]

ghost use Rattle.std.specs.Prelude.{position, take, not, ◌≡◌, ◌≤◌, length};
ghost use Rattle.facts.specs.Facts.{holds};
ghost use Rattle.frames.specs.Inner.Fits.{Short};
ghost use Rattle.quantifiers.specs.Inner.Lists.{Each};
ghost use Rattle.rules.specs.Rules.{subject_of, term_holds, names};
ghost use Rattle.denials.specs.Denials.{why_not, denial_number};

use frames::Rule;
use requests::Request;

// Kept: no `Option`: two reasons, each with a number of its own in the table.
// Unmet: the rule's place among all the book's rules and the term's place in that rule, both counted from 1.
#[derive(Clone, Copy)]
pub enum Denial {
    NoRule,
    Unmet(u16, u8),
}

// The table's number of a denial.
// Kept: the definition of this name; a variant that has places in it has no discriminant.
pub fn denial_number(d: Denial) -> u8
    ensures { result ≡ denial_number d }
{
    match d {
        Denial::NoRule => 13,
        Denial::Unmet(_, _) => 15,
    }
}

// The place of the first rule that has the request's op, role, a and v.
fn first_named(rules: &[Rule], q: Request) -> Option<usize>
    ensures { result ≡ position (names q) rules.now }
{
    rules.iter().position(|r| rules::is_named(r, q))
}

// The place of a rule's first term that does not hold of whom the request is about.
fn first_unmet(r: &Rule, ledger: &[u8], juniors: &[u32], q: Request) -> Option<usize>
    requires { Short r.now × (length juniors.now ≡ 32) }
    ensures { result ≡ position (λ t. not (term_holds juniors.now (holds ledger.now) (subject_of q.fact) t)) (take r.now.n r.now.terms) }
{
    let s = rules::subject_of(q.fact);
    rules::terms_of(r)
        .iter()
        .position(|t| !rules::term_holds(ledger, juniors, s, *t))
}

// Why no rule of the list permits the request: asked only where none does. There some term of the first rule that has the request's op,
// role, a and v does not hold; elsewhere the count of its terms stands for it.
pub fn why_not(rules: &[Rule], ledger: &[u8], juniors: &[u32], q: Request) -> Denial
    requires count_bound { (length rules.now ≤ 512) × Each Short rules.now }
    requires juniors_len { length juniors.now ≡ 32 }
    ensures { result ≡ why_not juniors.now rules.now (holds ledger.now) q }
{
    let Some(i) = first_named(rules, q) else {
        return Denial::NoRule;
    };
    let r = &rules[i];
    let j = first_unmet(r, ledger, juniors, q).unwrap_or(usize::from(r.n));
    Denial::Unmet((i + 1) as u16, (j + 1) as u8)
}
