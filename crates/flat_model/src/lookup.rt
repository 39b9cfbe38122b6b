ghost use Rattle.std.specs.Prelude.{◌≡◌, ℕ, IsSome, Some};
ghost use Rattle.flat_model.specs.Views.{Views};
ghost use Rattle.flat_model.specs.Intervals.{IsLengthOf};

use crate::clock::Elapsed;
use sync_values::Value;

/// What an equation can read at a moment. Names are given by their numbers.
///
/// Source: MLS 3.6, chapter 16, "Clocks and Clocked Variables" and "Clocked State Variables", in this project's
/// profile.
pub trait Lookup {
    ghost use Rattle.flat_model.specs.declared.clock.Elapsed.{Elapsed};

    /// The views from the moment (0), from the moment before (1), and so on back.
    ghost views: { Self → Views };

    /// The interval of the equation's clock.
    ghost elapsed: { Self → Elapsed };

    /// The value of a name at the moment; None where it has none.
    fn now(&self, name: u32) -> Option<Value>
        ensures { result ≡ (views self.now 0).now name };

    /// The value of a clocked name at its tick before, or its start.
    fn previous(&self, name: u32) -> Value
        requires { IsSome ((views self.now 0).previous name) }
        ensures { (views self.now 0).previous name ≡ Some result };

    /// The value of a clocked name at its last tick up to the moment, or its start.
    fn last(&self, name: u32) -> Value
        requires { IsSome ((views self.now 0).last name) }
        ensures { (views self.now 0).last name ≡ Some result };

    /// The value of a name at the moment before; None where it has none.
    fn left_now(&self, name: u32) -> Option<Value>
        ensures { result ≡ (views self.now 1).now name };

    /// The value of a clocked name at its last tick up to the moment before, or its start.
    fn left_last(&self, name: u32) -> Value
        requires { IsSome ((views self.now 1).last name) }
        ensures { (views self.now 1).last name ≡ Some result };

    /// Whether the clock of the equation ticks for the first time.
    fn first(&self) -> bool
        ensures { result ≡ (views self.now 0).first };

    /// The interval of the equation's clock at the moment, in seconds.
    fn interval(&self) -> Elapsed
        ensures elapsed { result ≡ elapsed self.now }
        ensures length { IsLengthOf result (views self.now 0).interval };
}
