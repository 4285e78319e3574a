ghost use Rattle.std.specs.Prelude.{◌≡◌, ◌==◌, [], ◌∷◌, ◌++◌, OnOk};
ghost use Rattle.std.specs.List.{list_any};
ghost use Rattle.std.specs.Str.{bytes_eq};
ghost use Rattle.iop_script.specs.Answers.{Takes};
ghost use Rattle.iop_script.specs.Reading.{empty_script, last_tick, with_event, with_args, with_named};

use crate::args::Args;
use crate::line_fault::LineFault;
use crate::named::Named;
use crate::raise::Raise;
use crate::rule::Rule;
use std::alloc::{AllocError, Global};
use std::marker::Model;

/// What a script says of a run.
#[derive(Debug, Drop)]
pub struct Script {
    /// The interrupt lines that are raised or lowered, in the order of their moments.
    pub events: Vec<Raise>,
    /// The words of modules: one entry for a module at most.
    pub args: Vec<Args>,
    /// The words of modules by their names: one entry for a name at most.
    pub named: Vec<Named>,
}

impl Model for Script {
    ghost use Rattle.iop_script.specs.Scripts.{Script};

    ghost Value = { Script };

    ghost view = { λ script. record {
      events = script.events.items;
      args = script.args.items;
      named = script.named.items;
    } };
}

impl Script {
    /// Makes the script that says nothing.
    pub(crate) fn new(alloc: Global) -> Self
        ensures { result ≡ empty_script }
    {
        Script {
            events: Vec::new(alloc),
            args: Vec::new(alloc),
            named: Vec::new(alloc),
        }
    }

    /// Tells the tick of the last event: 0 where there is none.
    fn last_tick(&self) -> u64
        ensures { result ≡ last_tick self.now.events }
    {
        self.events.last().map_or(0, |event| event.at)
    }

    /// Adds an event behind the others.
    fn add_event(&mut self, event: Raise) -> Result<(), AllocError>
        ensures { OnOk result
            (self.new ≡ record self.old { events = self.old.events ++ event ∷ [] }) }
    {
        self.events.push(event)?;
        Ok(())
    }

    /// Takes an event, which is not before the last one.
    pub(crate) fn take_event(&mut self, event: Raise) -> Result<(), LineFault>
        ensures { Takes result (with_event self.old event) self.new }
    {
        if event.at < self.last_tick() {
            return Err(LineFault::Broken(Rule::TickOrder));
        }
        Ok(self.add_event(event)?)
    }

    /// Tells whether it has words for a module.
    fn has_args(&self, module: u32) -> bool
        ensures { result ≡ list_any (λ a. a.number == «module») self.now.args }
    {
        self.args.iter().any(|args| args.module == module)
    }

    /// Adds the words of a module.
    fn add_args(&mut self, args: Args) -> Result<(), AllocError>
        ensures { OnOk result (self.new ≡ record self.old { args = self.old.args ++ args ∷ [] }) }
    {
        self.args.push(args)?;
        Ok(())
    }

    /// Takes the words of a module, which has none before.
    pub(crate) fn take_args(&mut self, args: Args) -> Result<(), LineFault>
        ensures { Takes result (with_args self.old args) self.new }
    {
        if self.has_args(args.module) {
            return Err(LineFault::Broken(Rule::ModuleOnce));
        }
        Ok(self.add_args(args)?)
    }

    /// Tells whether it has words for a name.
    fn has_name(&self, name: &[u8]) -> bool
        ensures { result ≡ list_any (λ n. bytes_eq n.name name.now) self.now.named }
    {
        self.named.iter().any(|named| named.name.as_slice() == name)
    }

    /// Adds the words for a name.
    fn add_named(&mut self, named: Named) -> Result<(), AllocError>
        ensures { OnOk result
            (self.new ≡ record self.old { named = self.old.named ++ named ∷ [] }) }
    {
        self.named.push(named)?;
        Ok(())
    }

    /// Takes the words for a name, which stands for none before.
    pub(crate) fn take_named(&mut self, named: Named) -> Result<(), LineFault>
        ensures { Takes result (with_named self.old named) self.new }
    {
        if self.has_name(&named.name) {
            return Err(LineFault::Broken(Rule::NameOnce));
        }
        Ok(self.add_named(named)?)
    }
}
