//! What a task computes.

ghost use Rattle.std.specs.Prelude.{◌≡◌, ℕ, IfOk, OnErr, OnOk};
ghost use Rattle.ckpt_once.specs.Programs as once;

use std::alloc::AllocError;
use std::marker::Model;

/// An element that a program puts on an output.
#[derive(Debug)]
pub struct Emitted {
    output: u32,
    element: u64,
}

impl Drop for Emitted {
    fn drop(self) {
        let Emitted {
            output: _,
            element: _,
        } = self;
    }
}

impl Model for Emitted {
    ghost use Rattle.ckpt_once.specs.Programs.{Emitted};

    ghost Value = { Emitted };

    ghost view = { λ e. record { output = e.output; element = e.element } };
}

impl Emitted {
    /// This element, on this output.
    pub fn new(output: u32, element: u64) -> Emitted
        ensures { result ≡ record { output = output; element = element } }
    {
        Emitted { output, element }
    }

    /// The output, by its number.
    pub fn output(&self) -> u32
        ensures { result ≡ self.now.output }
    {
        self.output
    }

    /// The element.
    pub fn element(&self) -> u64
        ensures { result ≡ self.now.element }
    {
        self.element
    }
}

/// The state of a task, with the program that changes it. The program is a function: the state and
/// what is processed decide the next state and what is put on the outputs. So it reads no clock, draws
/// no number by chance, and asks nobody. What a source reads depends on its state alone, which has the
/// offset.
pub trait Program: Drop {
    /// A number that names the state.
    ghost number: { Self → ℕ };

    /// The program, over these numbers.
    ghost program: { once.Program };

    /// Processes an element of this input. Fails only if memory runs out, and then the state is as it
    /// was.
    fn take(&mut self, input: u32, element: u64) -> Result<Vec<Emitted>, AllocError>
        ensures state { OnOk result (number self.new ≡ program.next (number self.old) (once.Takes input element)) }
        ensures emitted { IfOk result (λ ones. ones.items ≡ program.emits (number self.old) (once.Takes input element)) }
        ensures memory { OnErr result (number self.new ≡ number self.old) };

    /// A step of the task's own, as a source makes it. Fails only if memory runs out, and then the state
    /// is as it was.
    fn draw(&mut self) -> Result<Vec<Emitted>, AllocError>
        ensures state { OnOk result (number self.new ≡ program.next (number self.old) once.Draws) }
        ensures emitted { IfOk result (λ ones. ones.items ≡ program.emits (number self.old) once.Draws) }
        ensures memory { OnErr result (number self.new ≡ number self.old) };
}
