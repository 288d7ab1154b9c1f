// The accepted rules as a lent slice of records, out of which one rule is taken by value.
// Kept: README.md names this crate, and docs/DECISIONS.md (43) its laws in proofs/ByValue and proofs/Call, which stand. No crate calls
// `rule_at`: `rules[i]` or an iterator says the same today.

#![tactic(auto)]

ghost use Rattle.std.specs.Prelude.{◌≡◌, ◌<◌, length, get_or};
ghost use Rattle.frames.specs.Book.{no_rule};

use frames::Rule;

// Rule `i` of the list.
pub fn rule_at(rules: &[Rule], i: usize) -> Rule
    requires { i < length rules.now }
    ensures { result ≡ get_or rules.now i no_rule }
{
    rules[i]
}
