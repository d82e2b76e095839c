//! The hierarchy that a setup names.
ghost use Rattle.std.specs.Prelude.{◌≡◌, true, false, MatchResult};
ghost use Rattle.hierarchy.specs.AnyBottom.{bottom_facts, bottom_image};
ghost use Rattle.backing.specs.Image.{lent_bytes};
ghost use Rattle.memory.specs.Meaning.{Idle};
ghost use Rattle.player.specs.Setup.{NewRule, NewUpperRule, NewRules, NewBottom, setup_script, setup_bad_lines, setup_limits};
ghost use Rattle.trace.specs.Encode.{level_in_limits, upper_in_limits};
ghost use Rattle.trace.specs.declared.refusal.Refusal.TheVariants.{Limit};

use bottom::ordered::Ordered;
use bottom::scripted::Scripted;
use hierarchy::any_bottom::AnyBottom;
use hierarchy::any_rule::AnyRule;
use list::slices::front;
use replacement::fifo::Fifo;
use replacement::geometry::Geometry;
use replacement::lru::Lru;
use trace::in_limits::setup_in_limits;
use trace::records::{Bottom, Level, Rule, Setup, SetupBuffer};
use trace::refusal::Refusal;

/// The level that the faults of the memory at the bottom name.
const BOTTOM_LEVEL: u8 = 0;

// The rule of a level, at its beginning.
fn new_rule(level: Level) -> Result<AnyRule, Refusal>
    ensures { MatchResult result (λ rule. NewRule level rule) (λ refusal. (refusal ≡ Limit) × (level_in_limits level ≡ false)) }
{
    let Ok(geometry) = Geometry::new(usize::from(level.sets), usize::from(level.ways)) else {
        return Err(Refusal::Limit);
    };
    Ok(match level.rule {
        Rule::Lru => AnyRule::Lru(Lru::new(geometry)),
        Rule::Fifo => AnyRule::Fifo(Fifo::new(geometry)),
    })
}

// The rule of the upper level, if there is one.
fn new_upper_rule(level: Option<Level>) -> Result<Option<AnyRule>, Refusal>
    ensures { MatchResult result (λ rule. NewUpperRule level rule) (λ refusal. (refusal ≡ Limit) × (upper_in_limits level ≡ false)) }
{
    match level {
        None => Ok(None),
        Some(level) => Ok(Some(new_rule(level)?)),
    }
}

/// The rules of the levels of a setup that is within its limits, the lowest first.
pub(crate) fn new_rules(
    setup: &Setup,
    buffer: &SetupBuffer,
) -> Result<(AnyRule, Option<AnyRule>), Refusal>
    ensures { MatchResult result (λ rules. (setup_limits setup.now buffer.now ≡ true) × NewRules setup.now rules.0 rules.1) (λ refusal. (refusal ≡ Limit) × (setup_limits setup.now buffer.now ≡ false)) }
{
    if !setup_in_limits(setup, buffer) {
        return Err(Refusal::Limit);
    }
    let lowest = new_rule(setup.lowest)?;
    let upper = new_upper_rule(setup.upper)?;
    Ok((lowest, upper))
}

/// The memory at the bottom that a setup names, on these bytes.
pub(crate) fn new_bottom<'a>(
    setup: &Setup,
    buffer: &SetupBuffer,
    bytes: &'a mut [u8],
) -> AnyBottom<'a>
    ensures new { NewBottom setup.now.bottom (setup_script setup.now buffer.now) (setup_bad_lines setup.now buffer.now) result }
    ensures lent { lent_bytes (bottom_image result) ≡ bytes.entry }
    ensures idle { Idle (bottom_facts result) }
{
    let bad_lines = front(&buffer.bad_lines, usize::from(setup.bad_line_count));
    match setup.bottom {
        Bottom::Ordered { latency } => AnyBottom::Ordered(Ordered::new(
            bytes,
            BOTTOM_LEVEL,
            bad_lines,
            latency,
        )),
        Bottom::Scripted { length } => {
            let script = front(&buffer.script, usize::from(length));
            AnyBottom::Scripted(Scripted::new(bytes, BOTTOM_LEVEL, bad_lines, script))
        }
    }
}
