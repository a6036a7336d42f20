// A value for each class of speed.
#![tactic(auto)]

ghost use Rattle.std.specs.Prelude.{◌≡◌};
ghost use Rattle.model.specs.declared.SpeedClass.{SpeedClass};
ghost use Rattle.model.specs.PerClass.{value_in};

use crate::SpeedClass;

#[derive(Clone, Copy)]
pub struct PerClass<T> {
    pub urban: T,
    pub rural: T,
    pub motorway: T,
}

impl<T: Copy> PerClass<T> {
    // What f gives for each class.
    pub fn of<F: Fn(SpeedClass) -> T>(f: F) -> PerClass<T>
        requires { (c : SpeedClass) → F.pre f c }
        ensures { (c : SpeedClass) → F.post f c (value_in result c) }
    {
        PerClass {
            urban: f(SpeedClass::Urban),
            rural: f(SpeedClass::Rural),
            motorway: f(SpeedClass::Motorway),
        }
    }

    // The value of a class.
    pub fn get(self, c: SpeedClass) -> T
        ensures { result ≡ value_in self c }
    {
        match c {
            SpeedClass::Urban => self.urban,
            SpeedClass::Rural => self.rural,
            SpeedClass::Motorway => self.motorway,
        }
    }
}
