//! The worked examples of the rules, computed from the definitions that the contracts cite.
#![tactic(auto)]

ghost use Rattle.cases.specs.Refused.{PromiseRefuses};
ghost use Rattle.cases.specs.Row.{agree};
ghost use Rattle.cases.specs.Table.{table};
ghost use Rattle.std.specs.Prelude.{◌≡◌, true};

/// Whether every row of the table of worked examples holds, as each does. And the promise of a port refuses what it should.
#[tactic(auto, unfolding(line::specs::Laid::laid))]
pub fn examples_hold() -> bool
    ensures agree { (result ≡ agree table) × (result ≡ true) }
    ensures refused { PromiseRefuses }
{
    true
}
