ghost use Rattle.std.specs.Prelude.{◌≡◌, ◌<◌, IfSome, Some, length, replicate, set};
ghost use Rattle.iop_intr.specs.InterruptLines.{idle, line_of, IsDeliverable, handler_of, registering, releasing, enabling, disabling, raising, lowering, deliverable, delivering, finishing};
ghost use Rattle.iop_intr.specs.declared.irqs.TheConstants.{IRQ_LINES};

use crate::handler::Handler;
use crate::irq_line::IrqLine;
use crate::line_set::LineSet;
use iop_base::Code;
use std::marker::Model;

/// How many interrupt lines there are. It is this project's own profile.
pub const IRQ_LINES: usize = 64;

/// The interrupt lines. Each is raised or not, enabled or not, and has a handler or none.
#[derive(Drop)]
pub struct Irqs {
    raised: LineSet,
    enabled: LineSet,
    /// The lines that have a handler.
    handled: LineSet,
    /// The handler of each line that has one.
    handlers: [Handler; IRQ_LINES],
}

impl Model for Irqs {
    ghost use Rattle.std.specs.Prelude.{List};
    ghost use Rattle.iop_intr.specs.declared.irq_line.IrqLine.{IrqLine};

    ghost Value = { List IrqLine };

    ghost use Rattle.iop_intr.specs.LineViews.{lines_in};

    ghost view = { lines_in };

    ghost use Rattle.std.specs.Prelude.{◌≡◌, length};
    ghost use Rattle.iop_intr.specs.declared.irqs.TheConstants.{IRQ_LINES};

    ghost invariant = { λ irqs. length irqs.handlers ≡ IRQ_LINES };
}

impl Irqs {
    /// Makes the lines: each is lowered, disabled and without a handler.
    pub fn new() -> Self
        ensures { result ≡ replicate IRQ_LINES idle }
    {
        let nowhere = Handler {
            address: 0,
            arg: 0,
            gp: 0,
        };
        Irqs {
            raised: LineSet::new(),
            enabled: LineSet::new(),
            handled: LineSet::new(),
            handlers: [nowhere; IRQ_LINES],
        }
    }

    /// Makes lines that are as these are.
    pub fn copied(&self) -> Self
        ensures { result ≡ self.now }
    {
        Irqs {
            raised: self.raised,
            enabled: self.enabled,
            handled: self.handled,
            handlers: self.handlers,
        }
    }

    /// Registers the handler of a line, at the guest address `handler`, with its argument and its
    /// `$gp`. The line stays raised or not, and enabled or not. Answers `ILLEGAL_INTERRUPT` where
    /// there is no such line, else `HANDLER_FOUND` where it has a handler, and then changes
    /// nothing; else `OK`.
    pub fn register(&mut self, line: u32, handler: u32, arg: u32, gp: u32) -> Code
        ensures code { result ≡ (registering self.old line (handler_of handler arg gp)).0 }
        ensures lines { self.new ≡ (registering self.old line (handler_of handler arg gp)).1 }
    {
        if line as usize >= IRQ_LINES {
            return Code::ILLEGAL_INTERRUPT;
        }
        if self.handled.has(line) {
            return Code::HANDLER_FOUND;
        }
        self.handled.insert(line);
        self.handlers[line as usize] = Handler {
            address: handler,
            arg,
            gp,
        };
        Code::OK
    }

    /// Takes the handler of a line away, and disables the line. Answers `ILLEGAL_INTERRUPT` where
    /// there is no such line, else `HANDLER_NOT_FOUND` where it has no handler, and then changes
    /// nothing; else `OK`.
    pub fn release(&mut self, line: u32) -> Code
        ensures code { result ≡ (releasing self.old line).0 }
        ensures lines { self.new ≡ (releasing self.old line).1 }
    {
        if line as usize >= IRQ_LINES {
            return Code::ILLEGAL_INTERRUPT;
        }
        if !self.handled.has(line) {
            return Code::HANDLER_NOT_FOUND;
        }
        self.handled.remove(line);
        self.enabled.remove(line);
        Code::OK
    }

    /// Enables a line. Answers `ILLEGAL_INTERRUPT` where there is no such line, else `OK`.
    pub fn enable(&mut self, line: u32) -> Code
        ensures code { result ≡ (enabling self.old line).0 }
        ensures lines { self.new ≡ (enabling self.old line).1 }
    {
        if line as usize >= IRQ_LINES {
            return Code::ILLEGAL_INTERRUPT;
        }
        self.enabled.insert(line);
        Code::OK
    }

    /// Disables a line. Answers `ILLEGAL_INTERRUPT` where there is no such line, else
    /// `LINE_DISABLED` where it is disabled, and then changes nothing; else `OK`.
    pub fn disable(&mut self, line: u32) -> Code
        ensures code { result ≡ (disabling self.old line).0 }
        ensures lines { self.new ≡ (disabling self.old line).1 }
    {
        if line as usize >= IRQ_LINES {
            return Code::ILLEGAL_INTERRUPT;
        }
        if !self.enabled.has(line) {
            return Code::LINE_DISABLED;
        }
        self.enabled.remove(line);
        Code::OK
    }

    /// Raises a line below `IRQ_LINES`.
    pub fn raise(&mut self, line: u8)
        requires { line < IRQ_LINES }
        ensures { self.new ≡ raising self.old line }
    {
        self.raised.insert(line as u32);
    }

    /// Lowers a line below `IRQ_LINES`. It stays enabled or not.
    pub fn lower(&mut self, line: u8)
        requires { line < IRQ_LINES }
        ensures { self.new ≡ lowering self.old line }
    {
        self.raised.remove(line as u32);
    }

    /// Finds the lowest line that is raised, enabled and has a handler. None exactly where there is
    /// none.
    pub fn deliverable(&self) -> Option<u8>
        ensures lowest { result ≡ deliverable self.now }
        ensures found { IfSome result (IsDeliverable self.now) }
    {
        self.raised
            .intersection(self.enabled)
            .intersection(self.handled)
            .first()
    }

    /// Lowers and disables a line that is raised, enabled and has a handler. Answers the handler.
    pub fn deliver(&mut self, line: u8) -> Handler
        requires { IsDeliverable self.old line }
        ensures handler { (line_of self.old line).handler ≡ Some result }
        ensures lines { self.new ≡ delivering self.old line }
    {
        let line = line as u32;
        self.raised.remove(line);
        self.enabled.remove(line);
        self.handlers[line as usize]
    }

    /// Ends the handling of a line below `IRQ_LINES`, whose handler gave `value`: 0 disables the
    /// line, and another result enables it where it has a handler.
    pub fn finish(&mut self, line: u8, value: u32)
        requires { line < IRQ_LINES }
        ensures { self.new ≡ finishing self.old line value }
    {
        let line = line as u32;
        if value == 0 {
            self.enabled.remove(line);
        } else if self.handled.has(line) {
            self.enabled.insert(line);
        }
    }

    /// Tells how many lines there are: `IRQ_LINES`.
    pub fn len(&self) -> usize
        ensures len { result ≡ length self.now }
        ensures all { result ≡ IRQ_LINES }
    {
        let handlers = &self.handlers;
        handlers.len()
    }

    /// Tells how a line below `IRQ_LINES` stands.
    pub fn line(&self, number: u8) -> IrqLine
        requires { number < IRQ_LINES }
        ensures line { result ≡ line_of self.now number }
        ensures all { length self.now ≡ IRQ_LINES }
    {
        let number = number as u32;
        IrqLine {
            raised: self.raised.has(number),
            enabled: self.enabled.has(number),
            handler: self
                .handled
                .has(number)
                .then_some(self.handlers[number as usize]),
        }
    }

    /// Makes a line below `IRQ_LINES` stand so, whatever it was.
    pub fn put_line(&mut self, number: u8, line: IrqLine)
        requires { number < IRQ_LINES }
        ensures { self.new ≡ set self.old number line }
    {
        let number = number as u32;
        self.raised.put(number, line.raised);
        self.enabled.put(number, line.enabled);
        self.handled.put(number, line.handler.is_some());
        if let Some(handler) = line.handler {
            self.handlers[number as usize] = handler;
        }
    }
}
