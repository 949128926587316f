//! One tick of the registers, and many.
#![tactic(auto)]

ghost use Rattle.std.specs.Prelude.{◌≡◌, ◌&&◌, not, Some};
ghost use Rattle.divider.specs.Divider.{rose, at_zero, at_end};
ghost use Rattle.registers.specs.Bits.{base_of, rate_of, set_on};
ghost use Rattle.ticks.specs.Tick.{updated, tick, ticks};

use divider::Base;
use fields::Mode;
use registers::Regs;

/// The update itself: the clock goes on, UF is set, and AF where the alarm matches the new time; nothing is pending any more. No flag rises while RESET
/// is low.
#[tactic(auto, unfolding(crate::specs::Tick::updated))]
fn update(regs: &mut Regs)
    ensures { regs.new ≡ updated regs.old }
{
    let dse = cases::is_on(regs.b, registers::DSE);
    let mode = Mode::of_register_b(regs.b);
    let next = regs.clock.updated(mode, dse, regs.used, regs.alarm);
    regs.clock = next.clock;
    regs.used = next.used;
    regs.uf |= !regs.resetlow;
    regs.af |= next.matched & !regs.resetlow;
    regs.pending = false;
}

// The three tests of a tick. They are functions of their own, since inside it a fact is lost where the arms of `&&` join.

/// Whether the tap that the rate selects has just risen.
fn tap_rises(regs: &Regs, base: Base) -> bool
    ensures { result ≡ rose (Some base) (rate_of regs.now.a) regs.now.divider }
{
    regs.divider
        .has_risen(Some(base), registers::rate_of(regs.a))
}

/// Whether the count has reached 0 with SET 0.
fn starts_waiting(regs: &Regs) -> bool
    ensures { result ≡ (at_zero regs.now.divider && not (set_on regs.now.b)) }
{
    regs.divider.is_at_zero() && !registers::set_on(regs.b)
}

/// Whether a pending update takes place now.
fn is_due(regs: &Regs, base: Base) -> bool
    ensures { result ≡ (regs.now.pending && at_end (Some base) regs.now.divider) }
{
    regs.pending && regs.divider.is_at_end(Some(base))
}

/// One tick of the base on which the divider runs: the count, PF, pending, the update.
#[tactic(auto, unfolding(crate::specs::Tick::counted, crate::specs::Tick::flagged, crate::specs::Tick::awaiting, crate::specs::Tick::finished, crate::specs::Tick::tick))]
fn tick_on(regs: &mut Regs, base: Base)
    requires { base_of regs.old.a ≡ Some base }
    ensures { regs.new ≡ tick regs.old }
{
    regs.divider.tick(Some(base));
    regs.pf |= tap_rises(regs, base) & !regs.resetlow;
    regs.pending |= starts_waiting(regs);
    if is_due(regs, base) {
        update(regs);
    }
}

/// One tick. Where the divider is held, it does nothing.
#[tactic(auto, unfolding(crate::specs::Tick::tick))]
pub fn tick(regs: &mut Regs)
    ensures { regs.new ≡ tick regs.old }
{
    if let Some(base) = regs.base() {
        tick_on(regs, base);
    }
}

/// A number of ticks, one after the other.
#[tactic(auto, using(crate::proofs::Laws::Ticks::held_ticks_do_nothing), unfolding(crate::specs::Tick::ticks))]
pub fn ticks(regs: &mut Regs, count: u32)
    ensures { regs.new ≡ ticks count regs.old }
{
    // The base is asked for once: no tick changes it.
    if let Some(base) = regs.base() {
        for _ in 0..count {
            tick_on(regs, base);
        }
    }
}
