ghost use Rattle.std.specs.Prelude.{◌≡◌, ◌<◌, nat_lt, IfSome, All, position};
ghost use Rattle.iop_intr.specs.declared.irqs.TheConstants.{IRQ_LINES};
ghost use Rattle.iop_time.specs.declared.ticks.TheConstants.{NEVER};
ghost use Rattle.iop_machine.specs.Events.{CanCome, TakesDue, due_events, next_tick};
ghost use Rattle.iop_saved_script.specs.Sizes.{IsShort};

use iop_script::Raise;
use std::marker::Model;

/// The events of a script that are still to come, in the order of their ticks.
#[derive(Drop)]
pub(crate) struct Events {
    events: Vec<Raise>,
    /// How many events were taken.
    taken: usize,
}

impl Model for Events {
    ghost use Rattle.std.specs.Prelude.{List};
    ghost use Rattle.iop_script.specs.declared.raise.Raise.{Raise as Event};
    ghost use Rattle.iop_machine.specs.Events.{AreLeft, events_of};

    ghost Value = { List Event };

    ghost view = { events_of };

    ghost invariant = { AreLeft };
}

/// Finds the first event that is later than a moment.
fn first_later(events: &[Raise], moment: u64) -> Option<usize>
    ensures { result ≡ position (λ e. nat_lt moment e.at) events.now }
{
    events.iter().position(|event| event.at > moment)
}

impl Events {
    /// Makes them of the events of a script: in the order of their ticks, which are below 2^63, and
    /// of lines below 64.
    pub(crate) fn new(events: Vec<Raise>) -> Self
        requires come { CanCome events.items }
        requires short { IsShort events.items }
        ensures { result ≡ events.items }
    {
        Events { events, taken: 0 }
    }

    /// Lends those that were not taken yet.
    pub(crate) fn left(&self) -> &[Raise]
        ensures left { result.now ≡ self.now }
        ensures come { CanCome result.now }
        ensures short { IsShort result.now }
    {
        &self.events[self.taken..]
    }

    /// Lends those that are due at a moment.
    pub(crate) fn due(&self, moment: u64) -> &[Raise]
        ensures due { result.now ≡ due_events moment self.now }
        ensures lines { All (λ e. e.line < IRQ_LINES) result.now }
    {
        let left = self.left();
        match first_later(left, moment) {
            Some(count) => &left[..count],
            None => left,
        }
    }

    /// Tells the tick of the next one. None exactly where none is left.
    pub(crate) fn next_tick(&self) -> Option<u64>
        ensures tick { result ≡ next_tick self.now }
        ensures comes { IfSome result (λ tick. tick < NEVER) }
    {
        let event = self.events.get(self.taken)?;
        Some(event.at)
    }

    /// Takes the next one, if it is due at a moment. None exactly where none is due.
    pub(crate) fn take_due(&mut self, moment: u64) -> Option<Raise>
        ensures { TakesDue result moment self.old self.new }
    {
        let event = *self.events.get(self.taken)?;
        if event.at > moment {
            return None;
        }
        self.taken += 1;
        Some(event)
    }
}
