//! A port in a box, of whatever type it is: each call goes to the port inside.

use crate::{Failed, Port};

impl Port for Box<dyn Port> {
    ghost failures = { λ b. (Port-box b).failures b.value };

    ghost mode = { λ b. (Port-box b).mode b.value };

    ghost left = { λ b. (Port-box b).left b.value };

    ghost told = { λ b. (Port-box b).told b.value };

    fn bind(&mut self, name: &[u8]) -> Result<(), Failed> {
        (**self).bind(name)
    }

    fn rewind(&mut self) -> Result<(), Failed> {
        (**self).rewind()
    }

    fn take(&mut self) -> Result<Option<u8>, Failed> {
        (**self).take()
    }

    fn begin(&mut self) -> Result<(), Failed> {
        (**self).begin()
    }

    fn put(&mut self, byte: u8) -> Result<(), Failed> {
        (**self).put(byte)
    }

    fn finish(&mut self) -> Result<(), Failed> {
        (**self).finish()
    }
}
